// What the waiting pairs and the live keys keep of each other.
ghost use Rattle.std.specs.Prelude.{◌≡◌};
ghost use Rattle.tables.specs.Tables.{tab_of, sweep_by};
ghost use Rattle.trackers.specs.Lives.{live_key, live_wait, live_target};

use crate::targets::Targets;
use kinds::Ordered;
use live::LiveKeys;
use waiting::Subscribers;

// Retires each live key that nobody waits for.
pub fn retain_waited<K: Ordered, S: Ordered, P: Ordered>(
    keys: &mut LiveKeys<K, P>,
    waiting: &Subscribers<K, S>,
)
    ensures table { tab_of keys.new.table ≡ sweep_by (live_key K.Ordered.own (tab_of waiting.now.table).rows) (tab_of keys.old.table) }
    ensures queue { tab_of keys.new.queue ≡ tab_of keys.old.queue }
{
    keys.table.sweep(
        |row|
            ensures { result ≡ live_key K.Ordered.own (tab_of waiting.entry.now.table).rows row.now }
        { waiting.contains(row.key).then_some(*row) },
    );
}

// Keeps the waiting pairs of live keys. Beside the targets' own below: the tables differ, and where a row has its key.
pub fn retain_live<K: Ordered, S: Ordered, P: Ordered>(
    waiting: &mut Subscribers<K, S>,
    keys: &LiveKeys<K, P>,
)
    ensures { tab_of waiting.new.table ≡ sweep_by (live_wait K.Ordered.own (tab_of keys.now.table).rows) (tab_of waiting.old.table) }
{
    waiting.table.sweep(
        |row|
            ensures { result ≡ live_wait K.Ordered.own (tab_of keys.entry.now.table).rows row.now }
        { keys.get(row.pair.first).is_some().then_some(*row) },
    );
}

impl<K: Ordered, P: Ordered> Targets<K, P> {
    // Keeps the pairs of live keys.
    pub fn retain_live(&mut self, keys: &LiveKeys<K, P>)
        ensures { tab_of self.new.table ≡ sweep_by (live_target K.Ordered.own (tab_of keys.now.table).rows) (tab_of self.old.table) }
    {
        self.table.sweep(
            |row|
                ensures { result ≡ live_target K.Ordered.own (tab_of keys.entry.now.table).rows row.now }
            { keys.get(row.key.first).is_some().then_some(*row) },
        );
    }
}
