// The deliveries' tracker: the slips that are outstanding.
ghost use Rattle.std.specs.Prelude.{◌≡◌, ℕ, ◌+◌, ◌%◌, ◌^◌, is_some};
ghost use Rattle.kinds.specs.Order.{by_number};
ghost use Rattle.tables.specs.Rows.{lookup};
ghost use Rattle.tables.specs.Tables.{tab_of, put_in, take_out};
ghost use Rattle.trackers.specs.Slips.{numbered, by_slip, slip_of, slip_row, number_after, number_first, free_from, next_slip, slips_of, opened, freed};
ghost use Rattle.trackers.specs.Made.{MadeSlips};
ghost use Rattle.std.proofs.Common.{rules};

use kinds::Ordered;
use std::alloc::Global;
use tables::{Row, Table, TableError};

// Slips at most.
pub const MOST_SLIPS: usize = 2_048;

// Slips go by their number.
#[derive(Clone, Copy, PartialEq, Eq, PartialOrd, Ord)]
pub struct SlipNumber {
    pub number: u32,
}

impl Ordered for SlipNumber {
    ghost order = { λ x y. by_number x.number y.number };

    ghost compares = { Prim.search rules };

    ghost equals = { Prim.search rules };

    ghost same = { Prim.search rules };
}

// A delivery under judgement: its key, whose response it is, how long that took, its length, the caller's number for
// the bytes, and whether the response was accepted before.
#[derive(Clone, Copy)]
pub struct SlipRow<K, P> {
    pub slip: SlipNumber,
    pub key: K,
    pub peer: P,
    pub elapsed: u64,
    pub size: u64,
    pub bytes: u32,
    pub accepted: bool,
}

impl<K: Copy, P: Copy> Row for SlipRow<K, P> {
    type Key = SlipNumber;

    ghost key_of = { λ r. r.slip };

    fn key(&self) -> SlipNumber {
        self.slip
    }
}

// The rows by number, and the last number given.
#[derive(Drop)]
pub struct Slips<K: Copy, P: Copy> {
    pub table: Table<SlipRow<K, P>>,
    pub last: Option<u32>,
}

// The number after one: 0 follows the last.
fn number_after(number: u32, most: usize) -> u32
    ensures { result ≡ number_after most number }
{
    let next = number.wrapping_add(1);
    if (next as usize) < most { next } else { 0 }
}

// The first number from one on that is not outstanding, in so many steps.
#[tactic(auto, using(crate::proofs::Steps::free_here, crate::proofs::Steps::free_next, crate::proofs::Steps::free_end))]
fn free_from<K: Copy, P: Copy>(slips: &Table<SlipRow<K, P>>, most: usize, start: u32) -> Option<u32>
    ensures { result ≡ free_from most (tab_of slips.now).rows most start }
{
    let mut number = start;
    for _ in 0..most {
        if slips.get(SlipNumber { number }).is_none() {
            return Some(number);
        }
        number = number_after(number, most);
    }
    None
}

impl<K: Copy, P: Copy> Slips<K, P> {
    // No slip outstanding, with memory for 1 to 2,048.
    pub fn new(heap: Global, engine: u32, most: usize) -> Result<Slips<K, P>, TableError>
        ensures { MadeSlips engine most result }
    {
        let table = Table::new(heap, engine, most, MOST_SLIPS)?;
        Ok(Slips { table, last: None })
    }

    // The number that the next slip gets, if one is free.
    pub fn next(&self) -> Option<u32>
        ensures { result ≡ next_slip (slips_of self.now) }
    {
        let most = self.table.most();
        let start = self.last.map_or(0, |last| number_after(last, most));
        free_from(&self.table, most, start)
    }

    // The row of a slip that is outstanding.
    pub fn get(&self, slip: u32) -> Option<SlipRow<K, P>>
        ensures { result ≡ slip_row slip (slips_of self.now).rows.rows }
    {
        self.table.get(SlipNumber { number: slip })
    }

    // Takes the next slip for a delivery; the number in `row` does not count. Answers the number, if one was free.
    pub fn open(&mut self, row: SlipRow<K, P>) -> Option<u32>
        ensures answer { result ≡ next_slip (slips_of self.old) }
        ensures slips { slips_of self.new ≡ opened row (next_slip (slips_of self.old)) (slips_of self.old) }
    {
        let number = self.next()?;
        let _ = self.table.put(SlipRow {
            slip: SlipNumber { number },
            ..row
        });
        self.last = Some(number);
        Some(number)
    }

    // Frees a slip. Answers its row, if it was outstanding.
    pub fn free(&mut self, slip: u32) -> Option<SlipRow<K, P>>
        ensures answer { result ≡ slip_row slip (slips_of self.old).rows.rows }
        ensures slips { slips_of self.new ≡ freed slip (slips_of self.old) }
    {
        self.table.remove(SlipNumber { number: slip })
    }
}
