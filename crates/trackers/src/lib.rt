// Which peers a key is aimed at, which deliveries run, and what the tables keep of each other.
#![tactic(auto)]

mod keeping;
mod slips;
mod targets;

pub use keeping::{retain_live, retain_waited};
pub use slips::{MOST_SLIPS, SlipNumber, SlipRow, Slips};
pub use targets::Targets;
