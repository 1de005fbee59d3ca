//! A track that is told whole spans at places that rise by one, as those of a journal do.
ghost use Rattle.std.specs.Prelude.{ℕ, ◌≡◌, ◌<◌, ◌≤◌};
ghost use Rattle.span_event.specs.Event.{IsTime, greatest_time};
ghost use Rattle.span_track.specs.Thread.{HasRoom, IsNext, ThreadSpans};
ghost use Rattle.span_ledger_tests.specs.Placed.{IsPlaced};

use span_ledger::Args;
use span_track::{ThreadTrack, TrackFault};
use std::alloc::Global;
use std::marker::Model;
use std::process::Abort;

// A track, and the place of its next span.
#[derive(Drop)]
pub(super) struct Placed {
    track: ThreadTrack,
    next: u32,
    args: Args,
}

impl Model for Placed {
    ghost Value = { ThreadSpans ℕ };

    ghost view = { λ p. p.track };

    ghost invariant = { λ p. IsPlaced p.next p.track };
}

// The track can take a span at the next place, before which there are few.
fn expect_few(rt: &impl Abort, track: &ThreadTrack, next: u32)
    requires { IsPlaced next track.now }
    ensures room { HasRoom track.now }
    ensures free { IsNext next track.now }
    ensures few { next < 10000 }
{
    assert!(rt; next < 10_000);
}

impl Placed {
    pub(super) fn new(alloc: Global) -> Placed {
        Placed {
            track: ThreadTrack::new(alloc),
            next: 0,
            args: Args::empty(alloc),
        }
    }

    pub(super) fn track(&self) -> &ThreadTrack
        ensures { result.now ≡ self.now }
    {
        &self.track
    }

    pub(super) fn complete(
        &mut self,
        rt: &impl Abort,
        name: u32,
        ts: i64,
        dur: u64,
    ) -> Result<(), TrackFault>
        requires in_time { IsTime ts }
        requires lasts { dur ≤ greatest_time }
    {
        let at = self.next;
        expect_few(rt, &self.track, at);
        self.next = at + 1;
        self.track.complete(name, ts, dur, at, &self.args)
    }
}
