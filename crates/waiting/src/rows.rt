// A key with a subscriber that waits for it or belongs to its running delivery.
ghost use Rattle.std.specs.Prelude.{◌≡◌, ◌≤◌, length, Bool as Flag};
ghost use Rattle.waiting.specs.Calls.{Gives};
ghost use Rattle.waiting.specs.Groups.{bound_of, below, up_to, rows_of, any_waits, nth_delivered};

use kinds::{Ordered, Pair};
use tables::Row;

// A subscriber that left during its delivery does not wait and is delivered. Two marks and no enum: a pair may have either,
// both or none.
#[derive(Clone, Copy)]
pub struct WaitRow<K, S> {
    pub pair: Pair<K, S>,
    pub waits: bool,
    pub delivered: bool,
}

impl<K: Ordered, S: Ordered> Row for WaitRow<K, S> {
    type Key = Pair<K, S>;

    ghost key_of = { λ r. r.pair };

    fn key(&self) -> Pair<K, S> {
        self.pair
    }
}

// The first place past the rows before the bound, by halves. The library's `partition_point` promises a place only where
// all rows before the bound stand first, and this one is defined for every list.
#[tactic(auto, using(crate::proofs::Steps::bound_start, crate::proofs::Steps::bound_up, crate::proofs::Steps::bound_down, crate::proofs::Steps::bound_done))]
fn bound<R, F: Fn(&R) -> bool>(rows: &[R], comes_before: F) -> usize
    requires { F.IsAlwaysCallable comes_before }
    ensures value { (before : R → Flag) → Gives F.Fn before comes_before → result ≡ bound_of before rows.now }
    ensures within { result ≤ length rows.now }
{
    let mut low = 0;
    let mut high = rows.len();
    while low < high {
        let mid = low + (high - low) / 2;
        if comes_before(&rows[mid]) {
            low = mid + 1;
        } else {
            high = mid;
        }
    }
    low
}

// The rows of a key.
pub fn rows_of<K: Ordered, S: Ordered>(rows: &[WaitRow<K, S>], key: K) -> &[WaitRow<K, S>]
    ensures { result.now ≡ rows_of K.Ordered.own key rows.now }
{
    let start = bound(
        rows,
        |row|
            ensures { result ≡ below K.Ordered.own key row.now }
        { row.pair.first.cmp(&key).is_lt() },
    );
    let end = bound(
        rows,
        |row|
            ensures { result ≡ up_to K.Ordered.own key row.now }
        { row.pair.first.cmp(&key).is_le() },
    );
    &rows[start..end.max(start)]
}

// Whether anyone waits.
pub fn any_waits<K: Ordered, S: Ordered>(rows: &[WaitRow<K, S>]) -> bool
    ensures { result ≡ any_waits rows.now }
{
    rows.iter().any(|row| row.waits)
}

// The n-th delivered subscriber, from 0.
pub fn nth_delivered<K: Ordered, S: Ordered>(rows: &[WaitRow<K, S>], n: usize) -> Option<S>
    ensures { result ≡ nth_delivered rows.now n }
{
    rows.iter()
        .filter(|row| row.delivered)
        .map(|row| row.pair.second)
        .nth(n)
}
