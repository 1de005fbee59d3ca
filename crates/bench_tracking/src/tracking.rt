//! Gives events to a track, each at the position after the last one's.
ghost use Rattle.std.specs.Prelude.{◌≡◌, IfOk, OnOk, None};
ghost use Rattle.span_event.specs.Event.{IsTime};
ghost use Rattle.span_track.specs.Nesting.{ended};
ghost use Rattle.span_track.specs.Thread.{TakesEvent, any_name, end_refusal};
ghost use Rattle.bench_tracking.specs.Ready.{IsReady};

use crate::step::Step;
use span_event::{Event, Phase};
use span_keyed_tracks::TrackFault;
use span_track::{ThreadTrack, Wanted};
use std::alloc::{AllocError, Global};

// Gives the track an event at position `at`, and answers the next position.
fn take(track: &mut ThreadTrack, at: u32, step: &Step) -> Result<u32, TrackFault>
    requires { IsReady at track.old }
    ensures { IfOk result (λ next. IsReady next track.new) }
{
    if at == u32::MAX {
        return Err(TrackFault::Memory);
    }
    let event = &step.event;
    match event.phase {
        Phase::SpanBegin => {
            track.begin_span(step.number, event.ts, at, &event.args)?;
        }
        Phase::SpanEnd => end(track, event)?,
        Phase::Complete => {
            track.complete(step.number, event.ts, event.dur, at, &event.args)?;
        }
        _ => {}
    }
    Ok(at + 1)
}

// Ends the span that began last, by the calls with which the ledger does.
fn end(track: &mut ThreadTrack, event: &Event) -> Result<(), TrackFault>
    requires { IsTime event.now.ts }
    ensures { OnOk result (TakesEvent track.old track.new (ended event.now.ts event.now.args)) }
{
    if let Some(code) = track.end_refusal(event.ts, Wanted::Any) {
        return Err(TrackFault::Refused(code));
    }
    close_last(track, event).map_err(|_| TrackFault::Memory)
}

fn close_last(track: &mut ThreadTrack, event: &Event) -> Result<(), AllocError>
    requires in_time { IsTime event.now.ts }
    requires taken { end_refusal any_name track.old event.now.ts ≡ None }
    ensures { OnOk result (TakesEvent track.old track.new (ended event.now.ts event.now.args)) }
{
    let merged = track.merged_args(&event.args)?;
    track.close_span(event.ts, merged)?;
    Ok(())
}

/// The track of these events, unless one is refused.
pub(crate) fn track_of(alloc: Global, steps: &[Step]) -> Result<ThreadTrack, TrackFault> {
    let mut track = ThreadTrack::new(alloc);
    let mut at = 0;
    for step in steps {
        at = take(&mut track, at, step)?;
    }
    Ok(track)
}
