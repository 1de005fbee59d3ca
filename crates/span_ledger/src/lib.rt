//! The ledger: the journal of a collection, and what its accepted events come to so far, so that no answer looks back.
//! A tick is a microsecond or a nanosecond, as the run counts.
#![tactic(auto)]

mod answer_pair;
mod by_process;
mod counter_events;
mod keyed_events;
mod ledger;
mod listed;
mod meta_events;
mod named_spans;
mod phase_tracks;
mod replies;
mod thread_tracks;
mod track_rows;
mod tracks;

pub use by_process::{ListedProcess, ProcessRows, ThreadRows};
pub use ledger::Ledger;
pub use named_spans::{NamedSpan, TimedSpan};
pub use span_event::{
    ArgValue, Args, BoxedId, Event, Field, IdKey, Item, ItemFault, Items, Phase, Reach, Text,
};
pub use span_journal::{
    Answer, Back, BoxedReply, Cause, CountRow, Entry, Kind, Op, ProcessRow, Query, Reply, SpanRow,
    ThreadRow, laws,
};
pub use span_keyed_tracks::{
    AsyncKey, AsyncRow, AsyncTotals, FlowKey, FlowRow, FlowTotals, InstantRow, SeriesKey,
    SeriesRow, SeriesTotals,
};
pub use span_names::HashKeys;
pub use span_track::ClosedSpan;
