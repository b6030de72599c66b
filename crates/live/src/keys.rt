// The live keys in their memory.
ghost use Rattle.std.specs.Prelude.{◌≡◌};

mod asks;
mod edits;
pub mod making;

use crate::queue::QueueRow;
use crate::row::KeyRow;
use kinds::Ordered;
use tables::Table;

// The rows of the live keys, and memory in which the queue is listed. Each call that changes the rows says that the queue
// is as it was: the memory is lent to callers too, and one view of both would say the same in more words.
#[derive(Drop)]
pub struct LiveKeys<K: Ordered, P: Ordered> {
    pub table: Table<KeyRow<K, P>>,
    pub queue: Table<QueueRow<K>>,
}
