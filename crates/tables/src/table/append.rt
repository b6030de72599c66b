// What appends rows to a table, and lends them.
ghost use Rattle.std.specs.Prelude.{◌≡◌, length, nat_lt};
ghost use Rattle.tables.specs.Tables.{tab_of};
ghost use Rattle.tables.specs.Appends.{push_in};

use crate::row::Row;
use crate::table::Table;

impl<R: Row> Table<R> {
    ghost use Rattle.std.specs.Borrow.{sem};
    ghost use Rattle.tables.specs.Appends.{LendsRows};

    // Appends a row after the others. Answers whether there was room; where there was none, nothing changes.
    pub fn push(&mut self, row: R) -> bool
        ensures answer { result ≡ nat_lt (length (tab_of self.old).rows) (tab_of self.old).most }
        ensures table { tab_of self.new ≡ push_in row (tab_of self.old) }
    {
        if self.rows.len() < self.most {
            self.rows.push_reserved(row);
            return true;
        }
        false
    }

    // The rows, each of which may be changed.
    pub fn rows_mut(&mut self) -> &mut [R]
        ensures* writes_back { sem 𝓛 (LendsRows R.row self.entry result) }
        ensures value { result.now ≡ (tab_of self.old).rows }
    {
        self.rows.as_mut_slice()
    }
}
