// What a peer's record of replies weighs in a draw.
#![tactic(auto)]

mod flat;
mod means;
mod rating;
mod score;

pub use flat::Flat;
pub use means::Means;
pub use rating::Rating;
pub use score::{Score, quotient};
