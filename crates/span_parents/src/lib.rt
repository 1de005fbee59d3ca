//! Which closed spans of a thread hold others.
#![tactic(auto)]

mod holding;
mod nearest;

pub use holding::{outer, parents};
pub use span_ledger::TimedSpan;
