// A fetcher and its tables.

mod asks;
mod fetch;
mod keys;
mod peers;
mod requests;

use kinds::{Ordered, Pair};
use live::LiveKeys;
use roster::Participants;
use score::Rating;
use tables::{Only, Table};
use trackers::Targets;

// Its numbers, its own peer if any, the roster, the blocked list, the live keys, the targets, the next id once there
// was a send, and the waiter.
#[derive(Drop)]
pub struct Fetcher<P: Ordered, V: Rating, K: Ordered> {
    pub engine: u32,
    pub timeout: u64,
    pub delay: u64,
    pub own: Option<P>,
    pub roster: Participants<P, V>,
    pub blocked: Table<Only<P>>,
    pub keys: LiveKeys<K, P>,
    pub targets: Targets<K, P>,
    pub next: Option<u64>,
    pub waiter: Option<u64>,
}
