//! What differs between two tables, or between repeated runs of two sides, and the texts of it.
#![tactic(auto)]

mod changes;
mod comparing;
mod comparisons;
mod json_changes;
mod json_repetitions;
pub mod laws;
mod numbers;
mod repeated;
mod repetitions;
mod sides;
mod spreads;

pub use changes::Both;
pub use comparing::Comparing;
pub use comparisons::comparison;
pub use json_changes::json_comparison;
pub use json_repetitions::json_repeats;
pub use repetitions::repeats;
pub use span_event::Unit;
pub use span_table::{Column, Number, OrderedTable, Schema};
pub use span_table_text::{JsonFault, Shown};
