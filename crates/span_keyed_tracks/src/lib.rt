//! What the events of a key stand for: asynchronous spans, and flow chains; of counters series of samples; the names of
//! processes and threads; and instants.
//! A tick is a microsecond or a nanosecond, as the run counts.
#![tactic(auto)]

mod async_track;
mod counter_track;
mod fault;
mod flow_track;
mod hashed;
mod key_change;
mod keys;
mod meta_track;

pub use async_track::{AsyncRow, AsyncTotals, AsyncTrack};
pub use counter_track::{CounterTrack, SeriesRef, SeriesRow, SeriesTotals};
pub use fault::TrackFault;
pub use flow_track::{FlowClosed, FlowRow, FlowTotals, FlowTrack};
pub use keys::{AsyncKey, FlowKey, SeriesKey};
pub use meta_track::{InstantRow, MetaTrack, ProcessNames, ThreadNames, names_thread};
pub use span_event::{BoxedId, Event, IdKey, Reach, Text, Thread};
pub use span_names::HashKeys;
