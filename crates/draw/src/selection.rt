// The draw without replacement: rows drawn are set aside until it ends.
ghost use Rattle.std.specs.Prelude.{◌≡◌, ℕ, ◌+◌, ◌^◌, ◌<◌, ◌≤◌, [], length, is_ok, IfOk, if◌then◌else◌, vec_len, vec_capacity};
ghost use Rattle.draw.specs.Rows.{pick, rows_after, without, words_after, Fewer, Around, all_back, heft, manner_of};
ghost use Rattle.draw.specs.Words.{rest};
ghost use Rattle.draw.specs.Order.{order, order_words, Once};

use crate::rows::{By, Share, left_of, manner_of, place_of, put_back, set_aside};
use crate::words::{DrawSource, below};
use std::alloc::{AllocError, Global};

// Draws the manner of a pick.
fn drawn_manner<D: DrawSource>(source: &mut D, retries: u32) -> By
    ensures value { result ≡ manner_of retries (D.ahead source.old) }
    ensures after { D.ahead source.new ≡ rest (retries + 4) (D.ahead source.old) }
{
    manner_of(below(source, u64::from(retries) + 4))
}

// A draw over the shared weights: it borrows them, and whichever way it ends, every row is back. That all weights
// together are below 2^64 is asked at each draw: a selection is made over any slice, and a type of slices that carried the
// fact would ask for it at the making.
pub struct Selection<'a> {
    shares: &'a mut [Share],
}

impl Drop for Selection<'_> {
    fn drop(self)
        ensures { self.exit.0.now ≡ all_back self.entry.shares.now }
    {
        let Selection { shares } = self;
        put_back(shares);
    }
}

impl<'a> Selection<'a> {
    pub fn new(shares: &'a mut [Share]) -> Selection<'a>
        ensures lender { result.shares.ghost_name ≡ shares.entry.ghost_name }
        ensures rows { result.shares.now ≡ shares.old }
    {
        Selection { shares }
    }

    // The next row, set aside; none, and no word drawn, once no row is left. The retries come with each draw beside the
    // source, as in the port: they are the key's, and the selection is the roster's.
    pub fn next<D: DrawSource>(&mut self, source: &mut D, retries: u32) -> Option<usize>
        requires { heft self.old.shares.now < 2 ^ 64 }
        ensures place { result ≡ pick self.old.shares.now retries (D.ahead source.old) }
        ensures rows { self.new.shares.now ≡ rows_after self.old.shares.now result }
        ensures words { D.ahead source.new ≡ words_after self.old.shares.now retries (D.ahead source.old) }
        ensures back { all_back self.new.shares.now ≡ all_back self.old.shares.now }
        ensures weight { heft self.new.shares.now ≡ heft self.old.shares.now }
        ensures fewer { Fewer self.old.shares.now self.new.shares.now result }
        ensures around { Around self.old.shares.now retries (D.ahead source.old) result }
        ensures lender { self.new.shares.ghost_name ≡ self.old.shares.ghost_name }
    {
        let shares = &mut *self.shares;
        let left = left_of(shares);
        if left.heads == 0 {
            return None;
        }
        let by = drawn_manner(source, retries);
        let sum = left.by(by);
        let x = below(source, sum);
        let place = place_of(shares, by, x);
        set_aside(shares, place);
        Some(place)
    }

    // Sets one row aside without a draw; past the rows nothing changes.
    pub fn leave_out(&mut self, place: usize)
        ensures rows { self.new.shares.now ≡ without self.old.shares.now place }
        ensures lender { self.new.shares.ghost_name ≡ self.old.shares.ghost_name }
    {
        set_aside(self.shares, place);
    }
}

// Draws until no row is left, and lists the places. It stands apart from `order_of`, so that its proof has no part by hand.
fn draw_all<D: DrawSource>(
    places: &mut Vec<usize>,
    shares: &mut [Share],
    source: &mut D,
    retries: u32,
)
    requires fits { heft shares.old < 2 ^ 64 }
    requires empty { places.old.items ≡ [] }
    requires room { vec_len places.old + length shares.old ≤ vec_capacity places.old }
    ensures items { places.new.items ≡ order shares.old retries (D.ahead source.old) }
    ensures once { Once shares.old places.new.items }
    ensures words { D.ahead source.new ≡ order_words shares.old retries (D.ahead source.old) }
    ensures back { shares.new ≡ all_back shares.old }
{
    let mut selection = Selection::new(shares);
    while let Some(place) = selection.next(source, retries) {
        places.push_reserved(place);
    }
}

// The order in which the rows would be drawn: each that has a weight exactly once, and no other. Every row is back after.
// Without memory for the list nothing is drawn and nothing changes.
pub fn order_of<D: DrawSource>(
    heap: Global,
    shares: &mut [Share],
    source: &mut D,
    retries: u32,
) -> Result<Vec<usize>, AllocError>
    requires { heft shares.old < 2 ^ 64 }
    ensures places { IfOk result (λ v. v.items ≡ order shares.old retries (D.ahead source.old)) }
    ensures once { IfOk result (λ v. Once shares.old v.items) }
    ensures words { D.ahead source.new ≡ (if is_ok result then order_words shares.old retries (D.ahead source.old) else D.ahead source.old) }
    ensures rows { shares.new ≡ (if is_ok result then all_back shares.old else shares.old) }
{
    let mut places = Vec::with_capacity(heap, shares.len())?;
    draw_all(&mut places, shares, source, retries);
    Ok(places)
}
