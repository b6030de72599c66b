// The live keys: queued, out or under judgement.
#![tactic(auto)]

mod keys;
mod queue;
mod requests;
mod row;
mod stage;

pub use keys::LiveKeys;
pub use keys::making::MOST_KEYS;
pub use queue::{QueueRow, Turn};
pub use requests::Request;
pub use row::{KeyRow, moved, moved_row};
pub use stage::{Event, Stage};
