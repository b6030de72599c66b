// What changes a roster.
ghost use Rattle.std.specs.Prelude.{◌≡◌, ℕ, ◌≤◌, length, IfSome, nat_le};
ghost use Rattle.score.specs.Bounds.{most_weight};
ghost use Rattle.tables.specs.Tables.{tab_of};
ghost use Rattle.roster.specs.Peers.{rerated_in, new_weight};
ghost use Rattle.roster.specs.Rosters.{roster_of, taken_over, weighed_in, recorded_in};

use crate::excluded::Excluded;
use crate::join::join;
use crate::participants::Participants;
use crate::row::PeerRow;
use kinds::Ordered;
use score::Rating;
use tables::place;

// Records an exchange in the row of a peer. Answers the row's place and its new weight, or nothing if there is none.
// Kept as a form of the port: one row is found by order search and changed through `&mut`, and its rating is copied,
// recorded and stored back. A peer, a time and a length, here and in the calls above: they are what a response brings.
#[tactic(auto, unfolding(crate::specs::Peers::rerated_in, crate::specs::Peers::new_weight), using(crate::proofs::Hefts::changed_set, tables::proofs::Halving::row_at_get_or))]
fn record_row<P: Ordered, V: Rating>(
    rows: &mut [PeerRow<P, V>],
    peer: P,
    elapsed: u64,
    size: u64,
) -> Option<(usize, u64)>
    ensures answer { result ≡ new_weight P.Ordered.own V.Rating peer elapsed size rows.old }
    ensures rows { rows.new ≡ rerated_in P.Ordered.own V.Rating peer elapsed size rows.old }
    ensures bound { IfSome result (λ x. x.1 ≤ most_weight) }
{
    let i = place(rows, peer).ok()?;
    let row = &mut rows[i];
    let mut rating = row.rating;
    rating.record(elapsed, size);
    row.rating = rating;
    Some((i, rating.weight()))
}

#[tactic(auto, using(crate::proofs::Hefts::length_shares, crate::proofs::Hefts::length_changed))]
impl<P: Ordered, V: Rating> Participants<P, V> {
    // Makes a list the roster: old peers keep their rating, new ones are fresh, and every row is weighed. Answers
    // whether there was room for it.
    pub fn reconcile(&mut self, list: &[P], excluded: Excluded<'_, P>) -> bool
        ensures answer { result ≡ nat_le (length list.now) (roster_of self.old).peers.most }
        ensures roster { roster_of self.new ≡ taken_over P.Ordered.own V.Rating excluded.entry.own (tab_of excluded.entry.blocked.now).rows list.now (roster_of self.old) }
    {
        if self.peers.most() < list.len() {
            return false;
        }
        join(self.peers.rows(), list, &mut self.spare);
        self.shares.weigh(self.spare.rows(), excluded);
        std::mem::swap(&mut self.peers, &mut self.spare);
        self.spare.clear();
        true
    }

    // Weighs every row anew, as after a change of the blocked list.
    pub fn weigh(&mut self, excluded: Excluded<'_, P>)
        ensures { roster_of self.new ≡ weighed_in P.Ordered.own V.Rating excluded.entry.own (tab_of excluded.entry.blocked.now).rows (roster_of self.old) }
    {
        self.shares.weigh(self.peers.rows(), excluded);
    }

    // Records an exchange in the row of a peer, and in no other. Its share stays 0 where it is 0.
    pub fn record(&mut self, peer: P, elapsed: u64, size: u64)
        ensures { roster_of self.new ≡ recorded_in P.Ordered.own V.Rating peer elapsed size (roster_of self.old) }
    {
        if let Some((i, weight)) = record_row(self.peers.rows_mut(), peer, elapsed, size) {
            self.shares.reweigh(i, weight);
        }
    }
}
