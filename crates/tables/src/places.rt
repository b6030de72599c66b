// Where a key is among rows, by halves.
ghost use Rattle.std.specs.Prelude.{◌≡◌, length};
ghost use Rattle.tables.specs.Rows.{place_of, row_at, Within};

use crate::row::Row;
use kinds::Ordered;
use std::cmp::Ordering;

// The place of the row of a key, or where such a row would go.
// Kept as a loop: `binary_search_by` promises the place only for rows in order, and `place_of` names one for any rows.
pub fn place<R: Row>(rows: &[R], key: R::Key) -> Result<usize, usize>
    ensures value { result ≡ place_of R.Key.Ordered.order R.Row.key_of key rows.now }
    ensures within { Within (length rows.now) result }
{
    let mut low = 0;
    let mut high = rows.len();
    while low < high {
        let mid = low + (high - low) / 2;
        match rows[mid].key().cmp(&key) {
            Ordering::Less => low = mid + 1,
            Ordering::Equal => return Ok(mid),
            Ordering::Greater => high = mid,
        }
    }
    Err(low)
}

// The row at a place.
pub fn row_at<R: Copy>(rows: &[R], i: usize) -> Option<R>
    ensures { result ≡ row_at rows.now i }
{
    rows.get(i).copied()
}
