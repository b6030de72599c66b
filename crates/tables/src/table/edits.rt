// What makes, reads and changes a table.
ghost use Rattle.std.specs.Prelude.{◌≡◌, ℕ, ◌+◌, ◌<◌, ◌≤◌, length};
ghost use Rattle.tables.specs.Rows.{place_of, lookup, row_at, Within};
ghost use Rattle.tables.specs.Tables.{tab_of, rows_of, Made, fits, put_in, take_out};

use crate::places::{place, row_at};
use crate::row::Row;
use crate::table::Table;
use crate::table::error::TableError;
use std::alloc::Global;

impl<R: Row> Table<R> {
    // An empty table with memory for `most` rows, of which there may be 1 to `bound`. Here as at each part above, memory,
    // engine number and rows are given once, at the making: a struct of the three would be made for that call alone.
    pub fn new(heap: Global, engine: u32, most: usize, bound: usize) -> Result<Table<R>, TableError>
        ensures { Made engine most bound result }
    {
        if most == 0 || bound < most {
            return Err(TableError::Rows);
        }
        let rows = Vec::with_capacity(heap, most)?;
        Ok(Table { engine, most, rows })
    }

    pub fn len(&self) -> usize
        ensures { result ≡ length (tab_of self.now).rows }
    {
        self.rows.len()
    }

    pub fn engine(&self) -> u32
        ensures { result ≡ (tab_of self.now).engine }
    {
        self.engine
    }

    pub fn most(&self) -> usize
        ensures { result ≡ (tab_of self.now).most }
    {
        self.most
    }

    pub fn rows(&self) -> &[R]
        ensures { result.now ≡ (tab_of self.now).rows }
    {
        self.rows.as_slice()
    }

    // The place of the row of a key, or where such a row would go.
    pub fn find(&self, key: R::Key) -> Result<usize, usize>
        ensures value { result ≡ place_of R.Key.Ordered.order R.Row.key_of key (tab_of self.now).rows }
        ensures within { Within (length (tab_of self.now).rows) result }
    {
        place(self.rows.as_slice(), key)
    }

    // The row of a key.
    pub fn get(&self, key: R::Key) -> Option<R>
        ensures { result ≡ lookup R.Key.Ordered.order R.Row.key_of key (tab_of self.now).rows }
    {
        let i = self.find(key).ok()?;
        self.at(i)
    }

    // The row at a place in the order.
    pub fn at(&self, i: usize) -> Option<R>
        ensures { result ≡ row_at (tab_of self.now).rows i }
    {
        row_at(self.rows.as_slice(), i)
    }

    // Whether there is a row of the key, or room for one.
    pub fn has_room(&self, key: R::Key) -> bool
        ensures { result ≡ fits R.Key.Ordered.order R.Row.key_of key (tab_of self.now) }
    {
        self.find(key).is_ok() || self.rows.len() < self.most
    }

    // Puts the row in the place of that of its key, or at its place. Answers whether there was room, as a set's `insert`
    // answers by `bool`: a refusal has one reason.
    pub fn put(&mut self, row: R) -> bool
        ensures answer { result ≡ fits R.Key.Ordered.order R.Row.key_of (R.Row.key_of row) (tab_of self.old) }
        ensures table { tab_of self.new ≡ put_in R.Key.Ordered.order R.Row.key_of row (tab_of self.old) }
    {
        match self.find(row.key()) {
            Ok(i) => self.rows[i] = row,
            Err(i) if self.rows.len() < self.most => {
                let _ = self.rows.insert(i, row);
            }
            Err(_) => return false,
        }
        true
    }

    // Takes the row of a key out.
    pub fn remove(&mut self, key: R::Key) -> Option<R>
        ensures answer { result ≡ lookup R.Key.Ordered.order R.Row.key_of key (tab_of self.old).rows }
        ensures table { tab_of self.new ≡ take_out R.Key.Ordered.order R.Row.key_of key (tab_of self.old) }
    {
        let i = self.find(key).ok()?;
        Some(self.rows.remove(i))
    }
}
