// Who waits for which key, and who belongs to its running delivery.
#![tactic(auto)]

mod pairs;
mod rows;
mod rules;
mod tracker;

pub use pairs::count_new;
pub use rows::WaitRow;
pub use rules::{PerformanceOver, Rule, SubscriberGone};
pub use tracker::{MOST_PAIRS, Subscribers};
