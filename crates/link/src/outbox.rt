// The bytes that an outbox link writes its messages to.

use crate::reserved::Reserved;
use crate::tally::Tally;

// The bytes written so far, how many there may be, and what was taken.
#[derive(Drop)]
pub struct Outbox<P, K> {
    pub(crate) bytes: Reserved,
    pub(crate) tally: Tally<P, K>,
}
