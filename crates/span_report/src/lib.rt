//! The texts of a ledger, and the output that takes them: the report, whose lines its rows make, and in a module folded stacks.
#![tactic(auto)]

mod counts;
pub mod laws;
mod lines;
mod output;
mod sink;
pub mod stacks;
mod text;
mod writer;

pub use counts::{EntryCounts, head, put_counts, put_seals};
pub use lines::{first_line, json_text, put_unit, shown_name};
pub use output::{WriteFault, write_bytes, write_report};
pub use sink::{Sink, SinkFault};
pub use span_event::{Thread, Unit};
pub use span_journal::CountRow;
pub use span_ledger::{Ledger, ProcessRows, Text};
pub use text::{report, report_text};
pub use writer::Writer;
