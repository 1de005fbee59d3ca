//! What the events of one thread stand for: open and closed spans, and how its time is divided among the closed ones. With the
//! tracks of keys, which are a crate of their own.
//! A tick is a microsecond or a nanosecond, as the run counts.
#![tactic(auto)]

pub mod laws;
mod thread;
mod wanted;

pub use span_closed_spans::NameTotal;
pub use span_event::{ArgValue, Args, BoxedId, Event, IdKey, Phase, Reach, Text};
pub use span_keyed_tracks::{
    AsyncKey, AsyncRow, AsyncTotals, AsyncTrack, CounterTrack, FlowClosed, FlowKey, FlowRow,
    FlowTotals, FlowTrack, InstantRow, MetaTrack, ProcessNames, SeriesKey, SeriesRow, SeriesTotals,
    ThreadNames, TrackFault, names_thread,
};
pub use span_names::{HashKeys, Names};
pub use span_self_time::{ClosedSpan, Segment};
pub use thread::ThreadTrack;
pub use wanted::Wanted;
