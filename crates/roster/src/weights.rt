// The share of each row in a draw.
ghost use Rattle.std.specs.Prelude.{◌≡◌, ℕ, ◌^◌, ◌<◌, ◌≤◌, [], ◌∷◌, ◌++◌, length, vec_len, vec_capacity, IfOk};
ghost use Rattle.score.specs.Bounds.{most_weight};
ghost use Rattle.draw.specs.Rows.{back, all_back, heft};
ghost use Rattle.tables.specs.Tables.{tab_of};
ghost use Rattle.roster.specs.Bounds.{most_peers};
ghost use Rattle.roster.specs.Weights.{heaviest, changed_at, reweighed};
ghost use Rattle.roster.specs.Peers.{share_for, shares_for};

use crate::excluded::Excluded;
use crate::row::PeerRow;
use draw::Share;
use kinds::Ordered;
use score::Rating;
use std::alloc::{AllocError, Global};

// The shares of at most `most` rows, none set aside. All weights together stay below 2^64. That `most` stays is said by each
// method, since the roster ties it to its table's.
#[derive(Drop)]
pub struct Shares {
    most: usize,
    pub rows: Vec<Share>,
    ghost few: { most ≤ most_peers },
    ghost within: { vec_len rows ≤ most },
    ghost reserved: { most ≤ vec_capacity rows },
    ghost light: { heaviest rows.items ≤ most_weight },
    ghost fits: { heft rows.items < 2 ^ 64 },
    ghost back: { all_back rows.items ≡ rows.items },
}

// The share of a row: nothing if it is never asked, else its rating's weight.
fn share_of<P: Ordered, V: Rating>(row: &PeerRow<P, V>, excluded: &Excluded<'_, P>) -> Share
    ensures { result ≡ share_for P.Ordered.own V.Rating excluded.now.own (tab_of excluded.now.blocked.now).rows row.now }
{
    let weight = if excluded.contains(row.peer) {
        0
    } else {
        row.rating.weight()
    };
    Share {
        weight,
        aside: false,
    }
}

// A share with another weight; one of 0 stays.
fn reweighed_share(share: Share, weight: u64) -> Share
    ensures { result ≡ reweighed weight share }
{
    if share.weight == 0 {
        return share;
    }
    Share { weight, ..share }
}

#[tactic(auto, using(crate::proofs::Hefts::light_none, crate::proofs::Hefts::back_none, crate::proofs::Hefts::light_more, crate::proofs::Hefts::back_more, crate::proofs::Hefts::heft_fits, crate::proofs::Hefts::shares_done))]
impl Shares {
    // No shares, with memory for `most`.
    pub(crate) fn new(heap: Global, most: usize) -> Result<Shares, AllocError>
        requires { most ≤ most_peers }
        ensures { IfOk result (λ s. (s.most ≡ most) × (s.rows.items ≡ [])) }
    {
        let rows = Vec::with_capacity(heap, most)?;
        Ok(Shares { most, rows })
    }

    // Appends a share.
    fn push(&mut self, share: Share)
        requires room { length self.old.rows.items < self.old.most }
        requires light { share.weight ≤ most_weight }
        requires back { back share ≡ share }
        ensures rows { self.new.rows.items ≡ self.old.rows.items ++ share ∷ [] }
        ensures most { self.new.most ≡ self.old.most }
    {
        self.rows.push_reserved(share);
    }

    // Weighs every row anew. A call of its own, so that its loop has the registers.
    #[inline(never)]
    pub(crate) fn weigh<P: Ordered, V: Rating>(
        &mut self,
        rows: &[PeerRow<P, V>],
        excluded: Excluded<'_, P>,
    )
        requires { length rows.now ≤ self.old.most }
        ensures rows { self.new.rows.items ≡ shares_for P.Ordered.own V.Rating excluded.entry.own (tab_of excluded.entry.blocked.now).rows rows.now }
        ensures most { self.new.most ≡ self.old.most }
    {
        self.rows.clear();
        for row in rows {
            self.push(share_of(row, &excluded));
        }
    }

    // The share at a place becomes the weight, unless it is 0.
    #[tactic(auto, using(crate::proofs::Hefts::changed_set, crate::proofs::Hefts::changed_past, crate::proofs::Hefts::light_set, crate::proofs::Hefts::back_set, crate::proofs::Hefts::heft_fits))]
    pub(crate) fn reweigh(&mut self, i: usize, weight: u64)
        requires { weight ≤ most_weight }
        ensures rows { self.new.rows.items ≡ changed_at (reweighed weight) self.old.rows.items i }
        ensures most { self.new.most ≡ self.old.most }
    {
        if i < self.rows.len() {
            self.rows[i] = reweighed_share(self.rows[i], weight);
        }
    }
}
