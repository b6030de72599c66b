// The requests that are out, and the deliveries under judgement.
ghost use Rattle.std.specs.Prelude.{◌≡◌};
ghost use Rattle.live.specs.Requests.{out_of, sooner, asked_in, id_in, under_in};

use crate::row::KeyRow;
use crate::stage::Stage;
use kinds::Ordered;

// A request that is out: its key, where it went under which id and when, and its deadline.
#[derive(Clone, Copy)]
pub struct Request<K, P> {
    pub key: K,
    pub peer: P,
    pub id: u64,
    pub start: u64,
    pub deadline: u64,
}

// The request of a row, if it is out.
pub fn request_of<K: Ordered, P: Copy>(row: &KeyRow<K, P>, timeout: u64) -> Option<Request<K, P>>
    ensures { result ≡ out_of timeout row.now }
{
    match row.stage {
        Stage::Out { id, peer, start } => Some(Request {
            key: row.key,
            peer,
            id,
            start,
            deadline: start.saturating_add(timeout),
        }),
        _ => None,
    }
}

// Whether a request has an earlier deadline than another, or the same and a smaller id.
pub fn comes_sooner<K: Ordered, P: Copy>(a: &Request<K, P>, b: &Request<K, P>) -> bool
    ensures { result ≡ sooner a.now b.now }
{
    (a.deadline, a.id) < (b.deadline, b.id)
}

// The key of a row and its start, if it is out under an id at a peer.
pub fn asked_in<K: Ordered, P: Ordered>(row: &KeyRow<K, P>, id: u64, peer: P) -> Option<(K, u64)>
    ensures { result ≡ asked_in P.Ordered.own id peer row.now }
{
    match row.stage {
        Stage::Out {
            id: i,
            peer: p,
            start,
        } if i == id && p == peer => Some((row.key, start)),
        _ => None,
    }
}

// The key of a row, if it is out under an id.
pub fn id_in<K: Ordered, P: Copy>(row: &KeyRow<K, P>, id: u64) -> Option<K>
    ensures { result ≡ id_in id row.now }
{
    match row.stage {
        Stage::Out { id: i, .. } if i == id => Some(row.key),
        _ => None,
    }
}

// The key of a row, if it is under judgement by a slip.
pub fn under_in<K: Ordered, P: Copy>(row: &KeyRow<K, P>, slip: u32) -> Option<K>
    ensures { result ≡ under_in slip row.now }
{
    match row.stage {
        Stage::Judged { slip: s } if s == slip => Some(row.key),
        _ => None,
    }
}
