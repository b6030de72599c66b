// The queue: fresh keys before retried ones, then earlier deadlines, then smaller keys.
ghost use Rattle.std.specs.Prelude.{◌≡◌, Some};
ghost use Rattle.kinds.specs.Order.{by_number, and_then};
ghost use Rattle.tables.specs.Rows.{pair, by_pair};
ghost use Rattle.tables.specs.Tables.{tab_of, emptied};
ghost use Rattle.live.specs.Queues.{earlier, queue_row, past, enqueued, queue_on};
ghost use Rattle.std.proofs.Common.{rules};

use crate::row::KeyRow;
use crate::stage::Stage;
use kinds::{Ordered, Pair};
use tables::{Row, Table};

// When a key's turn comes: by the round, which is 0 for a fresh key and 1 for a retried one, then by the deadline. The
// round is a number and no flag: what comes after a turn may be asked of any.
#[derive(Clone, Copy, PartialEq, Eq, PartialOrd, Ord)]
pub struct Turn {
    pub round: u8,
    pub deadline: u64,
}

impl Ordered for Turn {
    ghost order = { λ x y. and_then (by_number x.round y.round) (by_number x.deadline y.deadline) };

    ghost compares = { Prim.search rules };

    ghost equals = { Prim.search rules };

    ghost same = { Prim.search rules };
}

// A queued key.
#[derive(Clone, Copy)]
pub struct QueueRow<K> {
    pub turn: Turn,
    pub key: K,
    pub aimed: bool,
    pub retries: u32,
}

impl<K: Ordered> Row for QueueRow<K> {
    type Key = Pair<Turn, K>;

    ghost key_of = { λ r. pair r.turn r.key };

    fn key(&self) -> Pair<Turn, K> {
        Pair {
            first: self.turn,
            second: self.key,
        }
    }
}

// The row of the queue that a key has, if it is queued.
pub fn queue_row<K: Ordered, P: Copy>(row: &KeyRow<K, P>) -> Option<QueueRow<K>>
    ensures { result ≡ queue_row row.now }
{
    match row.stage {
        Stage::Queued { retried, deadline } => Some(QueueRow {
            turn: Turn {
                round: if retried { 1 } else { 0 },
                deadline,
            },
            key: row.key,
            aimed: row.aimed,
            retries: row.retries,
        }),
        _ => None,
    }
}

// Whether a row of the queue comes before another.
pub fn comes_before<K: Ordered>(a: &QueueRow<K>, b: &QueueRow<K>) -> bool
    ensures { result ≡ earlier K.Ordered.own a.now b.now }
{
    a.key().cmp(&b.key()).is_lt()
}

// The row of the queue that a key has, if it is queued after another.
pub fn queued_after<K: Ordered, P: Copy>(
    row: &KeyRow<K, P>,
    last: &QueueRow<K>,
) -> Option<QueueRow<K>>
    ensures { result ≡ past K.Ordered.own (Some last.now) (queue_row row.now) }
{
    queue_row(row).filter(|next| comes_before(last, next))
}

// Puts a key into its place, if it is queued.
fn enqueue<K: Ordered, P: Copy>(queue: &mut Table<QueueRow<K>>, row: &KeyRow<K, P>)
    ensures { tab_of queue.new ≡ enqueued K.Ordered.own (queue_row row.now) (tab_of queue.old) }
{
    if let Some(next) = queue_row(row) {
        let _ = queue.put(next);
    }
}

// Lists the queued keys of the rows in queue order.
pub fn list_queue<K: Ordered, P: Copy>(queue: &mut Table<QueueRow<K>>, rows: &[KeyRow<K, P>])
    ensures { tab_of queue.new ≡ queue_on K.Ordered.own (emptied (tab_of queue.old)) rows.now }
{
    queue.clear();
    for row in rows {
        enqueue(queue, row);
    }
}
