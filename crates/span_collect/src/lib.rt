//! Collects the files of traces into one ledger, with one worker for each file, and reports on it and on what was refused.
#![tactic(auto)]

mod collection;
mod faults;
mod files;
mod gate;
mod parts;
mod queries;
mod reading_places;
pub mod refusals;
mod runs;
mod sealing;
mod settings;
mod words;
mod worker;
mod workers;

pub use collection::{CollectError, Outcome, collect};
pub use faults::{fault_line_of, fault_lines};
pub use files::{FileEnd, Input};
pub use gate::{FreeGate, Gate};
pub use queries::Asked;
pub use runs::{Collected, RunEnd, RunError, collect_to_ledger, run, run_to_ledger};
pub use sealing::Sealing;
pub use settings::Settings;
pub use span_event::Unit;
pub use span_journal::{
    Answer, BoxedReply, Cause, CountRow, Entry, Kind, Op, ProcessRow, Query, Reply, SpanRow,
    ThreadRow,
};
pub use span_ledger::{
    ArgValue, Args, AsyncKey, AsyncRow, AsyncTotals, BoxedId, ClosedSpan, Event, Field, FlowKey,
    FlowRow, FlowTotals, IdKey, InstantRow, Item, ItemFault, Ledger, NamedSpan, Phase, ProcessRows,
    Reach, SeriesKey, SeriesRow, SeriesTotals, Text, ThreadRows,
};
pub use span_read::Format;
pub use span_report::{Sink, SinkFault, WriteFault, Writer};
pub use words::{fault_word, numbered_text};
