//! The closed spans of one thread, with the totals of their names and the division of time among them.
//! A tick is a microsecond or a nanosecond, as the run counts.
#![tactic(auto)]

mod closed;
mod name_totals;
pub mod walk;

pub use closed::ClosedSpans;
pub use name_totals::NameTotal;
pub use span_self_time::{ClosedSpan, Segment};
