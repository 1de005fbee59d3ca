//! The time of a thread as an ordered map of stretches, among which each span finds its place.
ghost use Rattle.std.specs.{Option.option_map, Prelude.{true, false, ◌≡◌, ℤ, ◌≤ℤ◌, ◌<ℤ◌, Some, None, OnOk, OnErr}};
ghost use Rattle.span_self_time.specs.{Division.{Owners, owner_of, claims, ForSome, CanAdd, Adds, KeepsOwners, TimeMap.{IsTimeMap, IsEntrant, IsTaking, Stretches.at, Ties.{IsBarred, AreBarred}}}};

mod stretches;
mod ties;

use super::own_times::OwnTimes;
use crate::segment::OwnedSegment;
use std::alloc::{AllocError, Global};
use stretches::Stretches;
use ties::Ties;

/// The stretches of time, and the running times of the names.
#[derive(Clone, Drop)]
pub(crate) struct TimeMap {
    pub(super) stretches: Stretches,
    ties: Ties,
    pub(super) times: OwnTimes,
}

impl TimeMap {
    pub(crate) fn new(alloc: Global) -> TimeMap
        ensures { IsTimeMap (λ u. None) result }
    {
        TimeMap {
            stretches: Stretches::new(alloc),
            ties: Ties::new(alloc),
            times: OwnTimes::new(alloc),
        }
    }

    /// The span takes the ticks that it covers from no one and from the spans that it outranks. Where memory is refused,
    /// no reader sees a change.
    pub(crate) fn add(&mut self, span: &OwnedSegment) -> Result<(), AllocError>
        requires { CanAdd IsTimeMap (owner_of span.now) self.old }
        ensures ok { OnOk result (Adds IsTimeMap (owner_of span.now) self.old self.new) }
        ensures err { OnErr result (KeepsOwners IsTimeMap self.old self.new) }
    {
        if span.span_start == span.span_until {
            return Ok(());
        }
        let tied = self.starts_with_another(span);
        self.times.keep(span.segment.name)?;
        self.stretches.split_both(span.span_start, span.span_until)?;
        self.go_through(span);
        self.stretches.join(span.span_until);
        self.stretches.join(span.span_start);
        self.note(span, tied);
        Ok(())
    }

    // Whether the span starts when another does.
    fn starts_with_another(&self, span: &OwnedSegment) -> bool {
        match self.stretches.segment_at(span.span_start) {
            Some(owned) => owned.span_start == span.span_start,
            None => false,
        }
    }

    // Notes the span's end, if it starts with another.
    fn note(&mut self, span: &OwnedSegment, tied: bool)
        ensures { (owners : Owners) → IsBarred owners span.now.span_start span.now.span_until
            → IsTimeMap owners self.old → IsTimeMap owners self.new }
    {
        if tied {
            self.ties.note(span.span_start, span.span_until);
        }
    }

    // From stretch to stretch, or over all that a span covers from which the new one takes nothing.
    fn go_through(&mut self, span: &OwnedSegment)
        requires { ForSome (λ owners. IsEntrant (owner_of span.now) owners
            × IsTaking (owner_of span.now) span.now.span_start self.old owners) }
        ensures { (owners : Owners) → IsEntrant (owner_of span.now) owners
            → IsTaking (owner_of span.now) span.now.span_start self.old owners
            → IsTaking (owner_of span.now) span.now.span_until self.new owners }
    {
        let mut time = span.span_start;
        while time < span.span_until {
            time = self.go_on(span, time);
        }
    }

    // Takes the stretch that starts at `time`, or goes over a span from which it takes nothing. Returns the time before which all is taken.
    fn go_on(&mut self, span: &OwnedSegment, time: i64) -> i64
        requires taking { ForSome (λ owners. IsEntrant (owner_of span.now) owners
            × IsTaking (owner_of span.now) time self.old owners) }
        requires within { time <ℤ span.now.span_until }
        ensures taking { (owners : Owners) → IsEntrant (owner_of span.now) owners
            → IsTaking (owner_of span.now) time self.old owners
            → IsTaking (owner_of span.now) result self.new owners }
        ensures on { time <ℤ result }
    {
        let held = self.stretches.segment_at(time);
        if span.claims(&held) {
            return self.take(span, time, held);
        }
        let Some(owned) = held else {
            unreachable!();
        };
        self.over(span, &owned)
    }

    // The time up to which the segment's span, or another that starts with it, leaves nothing to the new span.
    fn over(&self, span: &OwnedSegment, owned: &OwnedSegment) -> i64
        requires { claims (owner_of span.now) (Some (owner_of owned.now)) ≡ false }
        ensures on { owned.now.span_until ≤ℤ result }
        ensures barred { (owners : Owners) (u : ℤ) → AreBarred owners self.now.ties
            → owned.now.span_start ≤ℤ u → owned.now.span_until ≤ℤ u → u <ℤ result
            → claims (owner_of span.now) (owners u) ≡ false }
    {
        let end = if span.span_start < owned.span_start {
            i64::MAX
        } else {
            span.span_until
        };
        match self.ties.last_before(owned.span_start, end) {
            Some(until) => until.max(owned.span_until),
            None => owned.span_until,
        }
    }

    // Takes the stretch that starts at `time`. Returns its end.
    fn take(&mut self, span: &OwnedSegment, time: i64, held: Option<OwnedSegment>) -> i64
        requires taking { ForSome (λ owners. IsEntrant (owner_of span.now) owners
            × IsTaking (owner_of span.now) time self.old owners) }
        requires within { time <ℤ span.now.span_until }
        requires held { at self.old.stretches time ≡ Some held }
        requires claimed { claims (owner_of span.now) (option_map owner_of held) ≡ true }
        ensures taking { (owners : Owners) → IsEntrant (owner_of span.now) owners
            → IsTaking (owner_of span.now) time self.old owners
            → IsTaking (owner_of span.now) result self.new owners }
        ensures on { time <ℤ result }
    {
        let until = self.stretches.end_of(time, &held);
        self.times.charge(span, &held, time, until);
        self.stretches.write(time, span.between(time, until));
        self.stretches.join(time);
        until
    }
}
