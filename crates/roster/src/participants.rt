// The roster in its memory.
ghost use Rattle.std.specs.Prelude.{◌≡◌, length};
ghost use Rattle.tables.specs.Tables.{tab_of, emptied};

mod calls;
mod making;

use crate::row::PeerRow;
use crate::weights::Shares;
use kinds::Ordered;
use score::Rating;
use tables::Table;

// The peers in their order with their ratings, and beside each its share of a draw, none set aside. `spare` is memory
// for the next roster, empty between calls.
// Kept as two lists side by side, a form of the port: a guard borrows the shared weights as one lent slice of plain
// rows.
#[derive(Drop)]
pub struct Participants<P: Copy, V: Copy> {
    pub peers: Table<PeerRow<P, V>>,
    pub shares: Shares,
    spare: Table<PeerRow<P, V>>,
    ghost beside: { length shares.rows.items ≡ length (tab_of peers).rows },
    ghost reserved: { shares.most ≡ (tab_of peers).most },
    ghost ready: { tab_of spare ≡ emptied (tab_of peers) },
}
