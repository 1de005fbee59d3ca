//! A page for a browser: a run's report, a table of its spans, its refusals and its folded stacks as data, and what shows them.
#![tactic(auto)]

mod data;
mod fault;
mod fixed;
mod graph;
pub mod laws;
mod runs;
mod safe;
mod stacks;
mod text;

pub use fault::PageFault;
pub use runs::RunsPage;
pub use span_collect::{FileEnd, Input, Ledger, Sink, WriteFault};
pub use span_event::Unit;
pub use span_report::stacks::SpanColumn;
pub use span_stack_sums::StackSum;
pub use text::page;
