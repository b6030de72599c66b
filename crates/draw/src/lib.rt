// Random words, and the draw without replacement over shared weights.
#![tactic(auto)]

pub mod rows;
pub mod selection;
pub mod words;

pub use rows::Share;
pub use selection::{Selection, order_of};
pub use words::{DrawSource, Supplied, Xorshift};
