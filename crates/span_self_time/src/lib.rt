//! Closed spans, and how the time of a thread is divided among them.
//! A tick is a microsecond or a nanosecond, as the run counts.
#![tactic(auto)]

mod division;
pub mod laws;
mod segment;
mod span;

pub use division::Division;
pub use segment::Segment;
pub use span::ClosedSpan;
pub use span_event::Args;
