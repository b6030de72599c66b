// The tries of keys and peers, until a message is taken.
ghost use Rattle.std.specs.Prelude.{◌≡◌, ◌^◌, ◌<◌, false as no, length, None as Nothing};
ghost use Rattle.draw.specs.Rows.{all_back, heft};
ghost use Rattle.tables.specs.Tables.{tab_of};
ghost use Rattle.roster.specs.Rosters.{roster_of};
ghost use Rattle.model.specs.Tries.{sooner_of, try_keys, limit, told, Carried, Unused};
ghost use Rattle.model.specs.Fetches.{aims};
ghost use Rattle.model.specs.Laws.{First, Quiet};

use crate::allowed::allow;
use crate::ids::take_id;
use draw::{DrawSource, Selection, Share};
use kinds::Ordered;
use link::{Link, Message};
use live::{LiveKeys, QueueRow};
use model::Walked;
use roster::{Participants, PeerRow};
use score::Rating;
use trackers::Targets;

// The time that stands for none: a number by the rules, so the least of all times is a `min`.
pub const LIMIT: u64 = 0x7fff_ffff_ffff_ffff;

// The sooner of two times.
fn sooner(wait: Option<u64>, until: u64) -> Option<u64>
    ensures { result ≡ sooner_of wait until }
{
    Some(wait.map_or(until, |least| least.min(until)))
}

// Sends the first due key that an allowed peer takes, in the order of the queue and of the draw.
fn walk<P: Ordered, V: Rating, K: Ordered, L: Link<P, K>, D: DrawSource>(
    queue: &[QueueRow<K>],
    out: &LiveKeys<K, P>,
    peers: &[PeerRow<P, V>],
    shares: &mut [Share],
    targets: &Targets<K, P>,
    link: &mut L,
    source: &mut D,
    next: &mut Option<u64>,
    time: u64,
) -> Walked<P, K>
    requires fits { heft shares.old < 2 ^ 64 }
    requires whole { all_back shares.old ≡ shares.old }
    requires same { length peers.now ≡ length shares.old }
    ensures shares { shares.new ≡ shares.old }
    ensures told { told result (D.DrawSource.ahead source.new) next.new ≡ try_keys (L.Link.word link.old) time peers.now (tab_of out.now.table).rows (aims P.Ordered.own K.Ordered.own (tab_of targets.now.table).rows) shares.old queue.now (D.DrawSource.ahead source.old) next.old limit Nothing no }
    ensures unused { Unused (tab_of out.now.table).rows result.sent }
    ensures link { Carried L.Link.count L.Link.latest link.old result.sent link.new }
{
    let mut late = LIMIT;
    let mut wait = None;
    let mut allowed = false;
    let mut sent = None;
    'keys: for row in queue {
        if row.turn.deadline > time {
            late = late.min(row.turn.deadline);
            continue;
        }
        allow(shares, peers, targets, row);
        let mut selection = Selection::new(&mut *shares);
        'peers: while let Some(place) = selection.next(source, row.retries) {
            allowed = true;
            let peer = peers[place].peer;
            match link.check(peer, time) {
                Err(until) => wait = sooner(wait, until),
                Ok(pass) => {
                    let id = take_id(out, next, source);
                    if link.send(pass, id, row.key) {
                        sent = Some(Message {
                            id,
                            peer,
                            key: row.key,
                        });
                        break 'keys;
                    }
                }
            }
        }
    }
    Walked {
        sent,
        late,
        wait,
        allowed,
    }
}

// Sends the first ready key of the queue, if any, over the roster's own shares, each of which is back in the end.
pub fn send_first<P: Ordered, V: Rating, K: Ordered, L: Link<P, K>, D: DrawSource>(
    roster: &mut Participants<P, V>,
    keys: &LiveKeys<K, P>,
    targets: &Targets<K, P>,
    link: &mut L,
    source: &mut D,
    next: &mut Option<u64>,
    time: u64,
) -> Walked<P, K>
    ensures roster { roster_of roster.new ≡ roster_of roster.old }
    ensures told { told result (D.DrawSource.ahead source.new) next.new ≡ try_keys (L.Link.word link.old) time (roster_of roster.old).peers.rows (tab_of keys.now.table).rows (aims P.Ordered.own K.Ordered.own (tab_of targets.now.table).rows) (roster_of roster.old).shares (tab_of keys.now.queue).rows (D.DrawSource.ahead source.old) next.old limit Nothing no }
    ensures unused { Unused (tab_of keys.now.table).rows result.sent }
    ensures link { Carried L.Link.count L.Link.latest link.old result.sent link.new }
    ensures first { First (L.Link.word link.old) time (roster_of roster.old).peers.rows (aims P.Ordered.own K.Ordered.own (tab_of targets.now.table).rows) (roster_of roster.old).shares (tab_of keys.now.queue).rows result.sent }
    ensures quiet { Quiet (L.Link.word link.old) time (roster_of roster.old).peers.rows (aims P.Ordered.own K.Ordered.own (tab_of targets.now.table).rows) (roster_of roster.old).shares (tab_of keys.now.queue).rows result.sent result.wait }
{
    walk(
        keys.queue.rows(),
        keys,
        roster.peers.rows(),
        roster.shares.rows.as_mut_slice(),
        targets,
        link,
        source,
        next,
        time,
    )
}
