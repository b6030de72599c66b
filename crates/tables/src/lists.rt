// Lists that are handed in.
ghost use Rattle.std.specs.Prelude.{◌≡◌};
ghost use Rattle.tables.specs.Lists.{ordered, fits_list};

use kinds::Ordered;

// Whether each value comes before the next: in order, with no repeat.
pub fn in_order<T: Ordered>(list: &[T]) -> bool
    ensures { result ≡ ordered T.Ordered.order list.now }
{
    list.is_sorted_by(|a, b| a.cmp(b).is_lt())
}

// Whether a list can become the rows of a table: in order, with no repeat, and no longer than the table.
pub fn fits_table<T: Ordered>(list: &[T], most: usize) -> bool
    ensures { result ≡ fits_list T.Ordered.order most list.now }
{
    list.len() <= most && in_order(list)
}
