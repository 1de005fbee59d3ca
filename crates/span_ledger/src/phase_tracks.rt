//! The tracks of a journal, each with the events of many keys: of threads, asynchronous spans, flow chains, counters, names and
//! instants.
ghost use Rattle.std.specs.Prelude.{◌≡◌, []};
ghost use Rattle.span_ledger.specs.{IsGood, an_event, a_seal, suits_end, IsSealTime, any_name, Telling.{accepted_at, TellsPhase}, Tracked.{PhasesKept, FollowPhases, HasPhaseRoom}};

use crate::answer_pair::AnswerPair;
use crate::counter_events::tell_counter;
use crate::keyed_events::{tell_async, tell_flow};
use crate::meta_events::{tell_instant, tell_meta};
use crate::thread_tracks::ThreadTracks;
use span_event::{Event, Phase, Thread};
use span_keyed_tracks::{AsyncTrack, CounterTrack, FlowTrack, MetaTrack, TrackFault};
use span_names::HashKeys;
use std::alloc::Global;
use std::marker::Model;

#[derive(Drop)]
pub(crate) struct PhaseTracks {
    pub(crate) spans: ThreadTracks,
    pub(crate) asynchronous: AsyncTrack,
    pub(crate) flows: FlowTrack,
    pub(crate) counters: CounterTrack,
    pub(crate) meta: MetaTrack,
}

impl Model for PhaseTracks {
    ghost Value = { PhasesKept };

    ghost view = { λ t. record {
      spans = t.spans;
      asynchronous = t.asynchronous;
      flows = t.flows;
      counters = t.counters;
      meta = t.meta;
    } };
}

impl PhaseTracks {
    pub(crate) fn new(alloc: Global, keys: HashKeys) -> PhaseTracks
        ensures { FollowPhases result [] }
    {
        PhaseTracks {
            spans: ThreadTracks::new(alloc, keys),
            asynchronous: AsyncTrack::with_keys(alloc, keys),
            flows: FlowTrack::with_keys(alloc, keys),
            counters: CounterTrack::with_keys(alloc, keys),
            meta: MetaTrack::new(alloc),
        }
    }

    // Tells the track of its phase an event at this position.
    pub(crate) fn tell(
        &mut self,
        alloc: Global,
        strict: bool,
        at: u32,
        event: &mut Event,
    ) -> Result<AnswerPair, TrackFault>
        requires good { IsGood event.old }
        requires room { HasPhaseRoom self.old at }
        ensures same { event.new ≡ event.old }
        ensures tells { TellsPhase (suits_end strict event.old)
            self.old (accepted_at at (an_event event.old)) result self.new }
    {
        match event.phase {
            Phase::SpanBegin | Phase::SpanEnd | Phase::Complete => {
                self.spans.tell(alloc, strict, at, event)
            }
            Phase::AsyncBegin | Phase::AsyncPoint | Phase::AsyncEnd => {
                tell_async(alloc, &mut self.asynchronous, event)
            }
            Phase::FlowStart | Phase::FlowStep | Phase::FlowEnd => {
                tell_flow(alloc, &mut self.flows, event)
            }
            Phase::Counter => tell_counter(&mut self.counters, event),
            Phase::Meta => tell_meta(&mut self.meta, event),
            Phase::Instant => tell_instant(&mut self.meta, event),
        }
    }

    // Tells the track of a thread a seal at this time.
    pub(crate) fn seal(
        &mut self,
        at: u32,
        thread: &Thread,
        ts: i64,
    ) -> Result<AnswerPair, TrackFault>
        requires { IsSealTime ts }
        ensures { TellsPhase any_name
            self.old (accepted_at at (a_seal thread.now ts)) result self.new }
    {
        self.spans.seal(thread, ts)
    }
}
