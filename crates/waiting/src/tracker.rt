// The subscribers' tracker: who waits for which key, and who belongs to its running delivery.
ghost use Rattle.std.specs.Prelude.{◌≡◌, is_some, Option as Maybe};
ghost use Rattle.tables.specs.Tables.{tab_of, sweep_by};
ghost use Rattle.waiting.specs.Calls.{Gives};
ghost use Rattle.waiting.specs.Waits.{wait_row, waits_of, wait_one, wait_all, only, begun, ended, undone, retired, retains};
ghost use Rattle.waiting.specs.Groups.{rows_of, waited, nth_delivered};
ghost use Rattle.waiting.specs.News.{new_of};
ghost use Rattle.waiting.specs.Made.{MadeSubscribers};

use crate::pairs::count_new;
use crate::rows::{WaitRow, any_waits, nth_delivered, rows_of};
use crate::rules::Rule;
use kinds::{Ordered, Pair};
use std::alloc::Global;
use tables::{Table, TableError};

// Waiting pairs at most, and target pairs at most.
pub const MOST_PAIRS: usize = 4_096;

#[derive(Drop)]
pub struct Subscribers<K: Ordered, S: Ordered> {
    pub table: Table<WaitRow<K, S>>,
}

impl<K: Ordered, S: Ordered> Subscribers<K, S> {
    // Nobody waits, with memory for 1 to 4,096 pairs. A function for this and the targets' would take the bound and the
    // type's name, and be longer.
    pub fn new(heap: Global, engine: u32, most: usize) -> Result<Subscribers<K, S>, TableError>
        ensures { MadeSubscribers engine most result }
    {
        let table = Table::new(heap, engine, most, MOST_PAIRS)?;
        Ok(Subscribers { table })
    }

    // The row of a pair.
    fn row(&self, key: K, subscriber: S) -> Option<WaitRow<K, S>>
        ensures { result ≡ wait_row K.Ordered.own S.Ordered.own key subscriber (tab_of self.now.table).rows }
    {
        self.table.get(Pair {
            first: key,
            second: subscriber,
        })
    }

    // Whether a pair has a row: its subscriber waits, or left the key's running delivery.
    pub fn has_pair(&self, key: K, subscriber: S) -> bool
        ensures { result ≡ is_some (wait_row K.Ordered.own S.Ordered.own key subscriber (tab_of self.now.table).rows) }
    {
        self.row(key, subscriber).is_some()
    }

    // How many new pairs an insert needs.
    pub fn count_new(&self, key: K, subscribers: &[S]) -> usize
        ensures { result ≡ new_of S.Ordered.order (λ x. is_some (wait_row K.Ordered.own S.Ordered.own key x (tab_of self.now.table).rows)) subscribers.now }
    {
        count_new(subscribers, |s| self.has_pair(key, *s))
    }

    // A subscriber waits for a key; a delivered mark that its pair has stays.
    fn wait_for(&mut self, key: K, subscriber: S)
        ensures { tab_of self.new.table ≡ wait_one K.Ordered.own S.Ordered.own key subscriber (tab_of self.old.table) }
    {
        let delivered = self.row(key, subscriber).is_some_and(|row| row.delivered);
        let _ = self.table.put(WaitRow {
            pair: Pair {
                first: key,
                second: subscriber,
            },
            waits: true,
            delivered,
        });
    }

    // All of a list wait for a key, repeats once.
    #[tactic(auto, using(std::proofs::lemmas::List::Sums::fold_more, std::proofs::lemmas::List::take_all), unfolding(crate::specs::Waits::wait_all))]
    pub fn insert(&mut self, key: K, subscribers: &[S])
        ensures { tab_of self.new.table ≡ wait_all K.Ordered.own S.Ordered.own key (tab_of self.old.table) subscribers.now }
    {
        for subscriber in subscribers {
            self.wait_for(key, *subscriber);
        }
    }

    // Whether a subscriber waits for a key.
    pub fn waits(&self, key: K, subscriber: S) -> bool
        ensures { result ≡ waits_of (wait_row K.Ordered.own S.Ordered.own key subscriber (tab_of self.now.table).rows) }
    {
        self.row(key, subscriber).is_some_and(|row| row.waits)
    }

    // Whether anyone waits for a key.
    pub fn contains(&self, key: K) -> bool
        ensures { result ≡ waited K.Ordered.own key (tab_of self.now.table).rows }
    {
        any_waits(rows_of(self.table.rows(), key))
    }

    // The n-th subscriber of a key's running delivery in their order, from 0.
    pub fn delivered(&self, key: K, n: usize) -> Option<S>
        ensures { result ≡ nth_delivered (rows_of K.Ordered.own key (tab_of self.now.table).rows) n }
    {
        nth_delivered(rows_of(self.table.rows(), key), n)
    }

    // Keeps, changes or drops each row of a key.
    fn sweep_key<F: Fn(&WaitRow<K, S>) -> Option<WaitRow<K, S>>>(&mut self, key: K, change: F)
        requires { F.IsAlwaysCallable change }
        ensures { (f : _ → Maybe _) → Gives F.Fn f change → tab_of self.new.table ≡ sweep_by (only K.Ordered.own key f) (tab_of self.old.table) }
    {
        self.table.sweep(
            |row|
                requires { F.IsAlwaysCallable change }
                ensures { (f : _ → Maybe _) → Gives F.Fn f change → result ≡ only K.Ordered.own key f row.now }
            {
                if row.pair.first == key {
                    change(row)
                } else {
                    Some(*row)
                }
            },
        );
    }

    // Begins a delivery to all that wait for a key.
    pub fn deliver(&mut self, key: K)
        ensures { tab_of self.new.table ≡ sweep_by (only K.Ordered.own key begun) (tab_of self.old.table) }
    {
        self.sweep_key(
            key,
            |row| Some(WaitRow {
                delivered: row.waits,
                ..*row
            }),
        );
    }

    // Ends a delivery: the delivered ones go, also one that left and came back.
    pub fn remove_delivered(&mut self, key: K)
        ensures { tab_of self.new.table ≡ sweep_by (only K.Ordered.own key ended) (tab_of self.old.table) }
    {
        self.sweep_key(key, |row| if row.delivered { None } else { Some(*row) });
    }

    // Undoes a delivery: the delivered marks go, and with them those that left.
    pub fn undo_delivery(&mut self, key: K)
        ensures { tab_of self.new.table ≡ sweep_by (only K.Ordered.own key undone) (tab_of self.old.table) }
    {
        self.sweep_key(
            key,
            |row| row.waits.then_some(WaitRow {
                delivered: false,
                ..*row
            }),
        );
    }

    // Retires a key: all its pairs go.
    pub fn remove(&mut self, key: K)
        ensures { tab_of self.new.table ≡ sweep_by (only K.Ordered.own key retired) (tab_of self.old.table) }
    {
        self.sweep_key(key, |_| None);
    }

    // Keeps the pairs that a rule keeps. A delivered one that it does not keep leaves, and its pair stays for the delivery.
    pub fn retain<W: Rule<K, S>>(&mut self, rule: &W)
        ensures { tab_of self.new.table ≡ sweep_by (retains (W.Rule.keeps rule.now)) (tab_of self.old.table) }
    {
        self.table.sweep(
            |row|
                ensures { result ≡ retains (W.Rule.keeps rule.entry.now) row.now }
            {
                if rule.keep(row.pair.first, row.pair.second) {
                    Some(*row)
                } else if row.delivered {
                    Some(WaitRow {
                        waits: false,
                        delivered: true,
                        ..*row
                    })
                } else {
                    None
                }
            },
        );
    }
}
