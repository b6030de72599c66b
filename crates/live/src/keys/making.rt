// What makes the table of live keys.
ghost use Rattle.std.specs.Prelude.{◌≡◌};
ghost use Rattle.live.specs.Keys.{Made};

use crate::keys::LiveKeys;
use crate::queue::QueueRow;
use crate::row::KeyRow;
use kinds::Ordered;
use std::alloc::Global;
use tables::{Table, TableError};

// Live keys at most.
pub const MOST_KEYS: usize = 1_024;

impl<K: Ordered, P: Ordered> LiveKeys<K, P> {
    // No live key, with memory for 1 to 1,024.
    pub fn new(heap: Global, engine: u32, most: usize) -> Result<LiveKeys<K, P>, TableError>
        ensures { Made engine most result }
    {
        let table = Table::new(heap, engine, most, MOST_KEYS)?;
        let queue = Table::new(heap, engine, most, MOST_KEYS)?;
        Ok(LiveKeys { table, queue })
    }
}
