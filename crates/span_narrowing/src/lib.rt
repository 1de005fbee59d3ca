//! Tables by more columns than are shown, narrowed: without the rows of which a condition on a column doesn't hold, and with merged
//! templates.
#![tactic(auto)]

mod conditions;
mod keys;
pub mod laws;
mod narrowing;
#[cfg(test)]
mod tests;

pub use conditions::Condition;
pub use narrowing::{Narrowing, narrowed, summed_by};
pub use span_event::Text;
pub use span_names::HashKeys;
pub use span_table::{Column, Schema, Table};
