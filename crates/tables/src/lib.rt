// Rows in the order of their keys, in memory that is reserved once.
#![tactic(auto)]

mod lists;
mod places;
mod row;
mod scans;
mod table;

pub use lists::{fits_table, in_order};
pub use places::{place, row_at};
pub use row::{Only, Row};
pub use scans::{best, first};
pub use table::Table;
pub use table::error::TableError;
