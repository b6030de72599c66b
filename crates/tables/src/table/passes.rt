// What goes over all rows of a table.
ghost use Rattle.std.specs.Prelude.{◌≡◌, ◌≤◌, length, vec_len, vec_capacity, nat_le, Option as Maybe};
ghost use Rattle.std.specs.Fn.{ComputesKey};
ghost use Rattle.tables.specs.Only.{only_rows};
ghost use Rattle.tables.specs.Sweeps.{Ruled};
ghost use Rattle.tables.specs.Tables.{tab_of, emptied, sweep_by, fill_with};

use crate::row::{Only, Row};
use crate::table::Table;
use kinds::Ordered;

impl<R: Row> Table<R> {
    // Drops every row.
    pub fn clear(&mut self)
        ensures { tab_of self.new ≡ emptied (tab_of self.old) }
    {
        self.rows.clear();
    }

    // Keeps, changes or drops each row, in one pass.
    #[tactic(auto, using(crate::proofs::Sweeps::ruled_some, crate::proofs::Sweeps::ruled_none))]
    pub fn sweep<F: FnMut(&R) -> Option<R>>(&mut self, mut rule: F)
        requires { F.IsAlwaysCallable rule }
        ensures { (f : R → Maybe R) → ComputesKey F.FnMut f rule → tab_of self.new ≡ sweep_by f (tab_of self.old) }
    {
        self.rows.retain_mut(
            |row|
                requires { F.IsAlwaysCallable rule }
                ensures { Ruled F.FnMut rule.entry row.old result rule.exit row.new }
            {
                match rule(row) {
                    Some(new) => {
                        *row = new;
                        true
                    }
                    None => false,
                }
            },
        );
    }
}

impl<K: Ordered> Table<Only<K>> {
    // Makes a list of keys the rows. Answers whether there was room for it.
    pub fn fill(&mut self, list: &[K]) -> bool
        ensures answer { result ≡ nat_le (length list.now) (tab_of self.old).most }
        ensures table { tab_of self.new ≡ fill_with (only_rows list.now) (length list.now) (tab_of self.old) }
    {
        if self.most < list.len() {
            return false;
        }
        self.clear();
        for key in list {
            self.rows.push_reserved(Only { key: *key });
        }
        true
    }
}
