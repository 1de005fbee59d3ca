//! The folded stacks of runs, added.
#![tactic(auto)]

mod owner;
mod stack_rows;
mod stack_sum;
mod text;
mod threads;

pub use span_ledger::Ledger;
pub use span_names::HashKeys;
pub use span_report::stacks::{SpanColumn, StacksFault};
pub use span_table::{Row, SumFault};
pub use stack_sum::StackSum;
