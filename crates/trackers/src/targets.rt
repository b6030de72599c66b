// The peers that keys are aimed at.
ghost use Rattle.std.specs.Prelude.{◌≡◌, ℕ, is_some};
ghost use Rattle.tables.specs.Tables.{tab_of, sweep_by};
ghost use Rattle.trackers.specs.Targets.{target_row, add_one, add_all, off_key};
ghost use Rattle.waiting.specs.News.{new_of};
ghost use Rattle.trackers.specs.Made.{MadeTargets};

use kinds::{Ordered, Pair};
use std::alloc::Global;
use tables::{Only, Table, TableError};
use waiting::{MOST_PAIRS, count_new};

#[derive(Drop)]
pub struct Targets<K: Ordered, P: Ordered> {
    pub table: Table<Only<Pair<K, P>>>,
}

impl<K: Ordered, P: Ordered> Targets<K, P> {
    // No targets, with memory for 1 to 4,096 pairs. A function for this and the subscribers' would take the bound and the
    // type's name, and be longer.
    pub fn new(heap: Global, engine: u32, most: usize) -> Result<Targets<K, P>, TableError>
        ensures { MadeTargets engine most result }
    {
        let table = Table::new(heap, engine, most, MOST_PAIRS)?;
        Ok(Targets { table })
    }

    // How many new pairs an addition needs.
    pub fn count_new(&self, key: K, peers: &[P]) -> usize
        ensures { result ≡ new_of P.Ordered.order (λ x. is_some (target_row K.Ordered.own P.Ordered.own key x (tab_of self.now.table).rows)) peers.now }
    {
        count_new(peers, |peer| self.contains(key, *peer))
    }

    // Adds a peer to the targets of a key.
    fn aim_at(&mut self, key: K, peer: P)
        ensures { tab_of self.new.table ≡ add_one K.Ordered.own P.Ordered.own key peer (tab_of self.old.table) }
    {
        let _ = self.table.put(Only {
            key: Pair {
                first: key,
                second: peer,
            },
        });
    }

    // Adds peers to the targets of a key, repeats once.
    #[tactic(auto, using(std::proofs::lemmas::List::Sums::fold_more, std::proofs::lemmas::List::take_all), unfolding(crate::specs::Targets::add_all))]
    pub fn add(&mut self, key: K, peers: &[P])
        ensures { tab_of self.new.table ≡ add_all K.Ordered.own P.Ordered.own key (tab_of self.old.table) peers.now }
    {
        for peer in peers {
            self.aim_at(key, *peer);
        }
    }

    // Takes all targets of a key off.
    pub fn clear(&mut self, key: K)
        ensures { tab_of self.new.table ≡ sweep_by (off_key K.Ordered.own key) (tab_of self.old.table) }
    {
        self.table.sweep(
            |row|
                ensures { result ≡ off_key K.Ordered.own key row.now }
            { (row.key.first != key).then_some(*row) },
        );
    }

    // Whether a peer is a target of a key.
    pub fn contains(&self, key: K, peer: P) -> bool
        ensures { result ≡ is_some (target_row K.Ordered.own P.Ordered.own key peer (tab_of self.now.table).rows) }
    {
        self.table
            .get(Pair {
                first: key,
                second: peer,
            })
            .is_some()
    }
}
