//! An event with a key, told to the track of asynchronous spans or to that of flow chains.
ghost use Rattle.std.specs.Prelude.{◌≡◌, IsSome};
ghost use Rattle.span_ledger.specs.{IsGood, HasAsyncRoom, HasFlowRoom, async_event, flow_event, Telling.{TellsAsync, TellsFlow}};

use crate::answer_pair::{AnswerPair, twice};
use span_event::{Event, Phase, Text};
use span_journal::Answer;
use span_keyed_tracks::{AsyncKey, AsyncTrack, FlowClosed, FlowKey, FlowTrack, TrackFault};
use std::alloc::Global;
use std::mem;

// What is told of an event's key, which has the event's own texts for so long, so that none is copied.
macro_rules! with_key {
    ($alloc:ident, $event:ident, $key:ident = $type:ident { $($text:ident),* }, $told:expr) => {{
        let Some(id) = $event.key.take() else {
            unreachable!();
        };
        let $key = $type {
            id,
            $($text: mem::replace(&mut $event.$text, Text::empty($alloc)),)*
        };
        let told = $told;
        $event.key = Some($key.id);
        $($event.$text = $key.$text;)*
        told
    }};
}

pub(crate) fn tell_async(
    alloc: Global,
    track: &mut AsyncTrack,
    event: &mut Event,
) -> Result<AnswerPair, TrackFault>
    requires good { IsGood event.old }
    requires key { IsSome event.old.key }
    requires room { (key : AsyncKey) → HasAsyncRoom track.old key }
    ensures same { event.new ≡ event.old }
    ensures tells { TellsAsync track.old (async_event event.old event.old.phase) result track.new }
{
    with_key!(
        alloc,
        event,
        key = AsyncKey { cat, scope, name },
        match event.phase {
            Phase::AsyncBegin => track
                .begin_async(&key, event.ts)
                .map(|()| twice!(Answer::AsyncOpened)),
            Phase::AsyncEnd => track
                .end_async(&key, event.ts)
                .map(|length| twice!(Answer::AsyncClosed { length })),
            _ => track.point(&key).map(|()| twice!(Answer::AsyncPoint)),
        }
    )
}

pub(crate) fn tell_flow(
    alloc: Global,
    track: &mut FlowTrack,
    event: &mut Event,
) -> Result<AnswerPair, TrackFault>
    requires good { IsGood event.old }
    requires key { IsSome event.old.key }
    requires room { (key : FlowKey) → HasFlowRoom track.old key }
    ensures same { event.new ≡ event.old }
    ensures tells { TellsFlow track.old (flow_event event.old event.old.phase) result track.new }
{
    with_key!(
        alloc,
        event,
        key = FlowKey { cat, name },
        match event.phase {
            Phase::FlowStart => track
                .start_flow(&key, event.ts)
                .map(|()| twice!(Answer::FlowStarted)),
            Phase::FlowEnd => track.end_flow(&key, event.ts).map(|closed| {
                let FlowClosed { points, length } = closed;
                twice!(Answer::FlowEnded { points, length })
            }),
            _ => track
                .step_flow(&key, event.ts)
                .map(|()| twice!(Answer::FlowStep)),
        }
    )
}
