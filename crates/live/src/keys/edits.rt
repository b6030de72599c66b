// What changes the live keys.
ghost use Rattle.std.specs.Prelude.{◌≡◌};
ghost use Rattle.tables.specs.Rows.{lookup};
ghost use Rattle.tables.specs.Tables.{tab_of, fits, put_in, take_out};
ghost use Rattle.live.specs.Keys.{key_of, fresh_row, step_at, stepped, step_fits, aim_at, aimed_in, aim_fits};

use crate::keys::LiveKeys;
use crate::row::{KeyRow, moved_row};
use crate::stage::{Event, Stage};
use kinds::Ordered;

impl<K: Ordered, P: Ordered> LiveKeys<K, P> {
    // The row of a key, if it is live.
    pub fn get(&self, key: K) -> Option<KeyRow<K, P>>
        ensures { result ≡ lookup K.Ordered.order key_of key (tab_of self.now.table).rows }
    {
        self.table.get(key)
    }

    // Puts a fresh key into the queue, due at a time. Answers whether there was room. A key and a time, here and in the
    // calls above: no row has them before the call.
    pub fn insert(&mut self, key: K, aimed: bool, time: u64) -> bool
        ensures answer { result ≡ fits K.Ordered.order key_of key (tab_of self.old.table) }
        ensures table { tab_of self.new.table ≡ put_in K.Ordered.order key_of (fresh_row key aimed time) (tab_of self.old.table) }
        ensures queue { tab_of self.new.queue ≡ tab_of self.old.queue }
    {
        self.table.put(KeyRow {
            key,
            aimed,
            retries: 0,
            stage: Stage::Queued {
                retried: false,
                deadline: time,
            },
        })
    }

    // Takes a key out.
    pub fn remove(&mut self, key: K) -> Option<KeyRow<K, P>>
        ensures answer { result ≡ lookup K.Ordered.order key_of key (tab_of self.old.table).rows }
        ensures table { tab_of self.new.table ≡ take_out K.Ordered.order key_of key (tab_of self.old.table) }
        ensures queue { tab_of self.new.queue ≡ tab_of self.old.queue }
    {
        self.table.remove(key)
    }

    // Moves a key by an event, as its stage says. Answers whether it moved.
    pub fn apply(&mut self, key: K, event: Event<P>) -> bool
        ensures answer { result ≡ step_fits K.Ordered.own key event (tab_of self.old.table) }
        ensures table { tab_of self.new.table ≡ stepped K.Ordered.own key event (tab_of self.old.table) }
        ensures queue { tab_of self.new.queue ≡ tab_of self.old.queue }
    {
        let Some(row) = self.table.get(key) else {
            return false;
        };
        let Some(next) = moved_row(row, event) else {
            return false;
        };
        self.table.put(next)
    }

    // Says whether a live key has a target set. Answers whether it is live.
    pub fn aim(&mut self, key: K, aimed: bool) -> bool
        ensures answer { result ≡ aim_fits K.Ordered.own key aimed (tab_of self.old.table) }
        ensures table { tab_of self.new.table ≡ aimed_in K.Ordered.own key aimed (tab_of self.old.table) }
        ensures queue { tab_of self.new.queue ≡ tab_of self.old.queue }
    {
        let Some(row) = self.table.get(key) else {
            return false;
        };
        self.table.put(KeyRow { aimed, ..row })
    }
}
