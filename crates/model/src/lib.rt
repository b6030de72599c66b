// What the calls of a fetcher come to, as definitions on lists and numbers.
#![tactic(auto)]

use link::Message;

// What a walk over the queue came to: the message that was taken, the least deadline not due, the least wait met, and
// whether a due key had an allowed peer.
#[derive(Drop)]
pub struct Walked<P, K> {
    pub sent: Option<Message<P, K>>,
    pub late: u64,
    pub wait: Option<u64>,
    pub allowed: bool,
}
