// The roster that a list makes of the one before.
ghost use Rattle.std.specs.Prelude.{◌≡◌, ◌≤◌, [], length};
ghost use Rattle.tables.specs.Tables.{tab_of, with_rows};
ghost use Rattle.roster.specs.Peers.{fresh_row, from_peer, row_for, rows_past, joined};

use crate::row::PeerRow;
use kinds::Ordered;
use score::Rating;
use std::cmp::Ordering;
use tables::Table;

// The row of a new peer.
fn newcomer_row<P: Ordered, V: Rating>(peer: P) -> PeerRow<P, V>
    ensures { result ≡ fresh_row V.Rating peer }
{
    PeerRow {
        peer,
        rating: V::fresh(),
    }
}

// The row of a peer, the old one or a fresh one where there is none, and the old rows after it.
#[tactic(auto, unfolding(crate::specs::Peers::from_peer))]
fn row_of<P: Ordered, V: Rating>(
    old: &[PeerRow<P, V>],
    peer: P,
) -> (PeerRow<P, V>, &[PeerRow<P, V>])
    ensures row { result.0 ≡ row_for P.Ordered.own V.Rating peer (from_peer P.Ordered.own peer old.now) }
    ensures rest { result.1.now ≡ rows_past P.Ordered.own peer (from_peer P.Ordered.own peer old.now) }
{
    let mut rest = old;
    while let Some((row, after)) = rest.split_first() {
        match row.peer.cmp(&peer) {
            Ordering::Less => rest = after,
            Ordering::Equal => return (*row, after),
            Ordering::Greater => break,
        }
    }
    (newcomer_row(peer), rest)
}

// Writes a row for each peer of the list into `out`: the old one, or a fresh one where there is none. Goes once along
// both, with at most as many comparisons as both have peers together.
pub fn join<P: Ordered, V: Rating>(
    old: &[PeerRow<P, V>],
    list: &[P],
    out: &mut Table<PeerRow<P, V>>,
)
    requires empty { (tab_of out.old).rows ≡ [] }
    requires room { length list.now ≤ (tab_of out.old).most }
    ensures { tab_of out.new ≡ with_rows (tab_of out.old) (joined P.Ordered.own V.Rating list.now old.now) }
{
    let mut rest = old;
    for peer in list {
        let (row, after) = row_of(rest, *peer);
        rest = after;
        let _ = out.push(row);
    }
}
