// The walk of a fetch over due keys and drawn peers.
#![tactic(auto)]

mod allowed;
mod ids;
mod tries;

pub use tries::{LIMIT, send_first};
