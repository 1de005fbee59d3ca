//! The division of a thread's time, kept in the way that suits the order in which its spans come.
ghost use Rattle.std.specs.Prelude.{◌≡◌, ◌≢◌, ◌≤◌, ℕ, ◌≤ℤ◌, nat_eq, List, [], ◌∷◌, ◌++◌, length, map, slice_get, option_copied, All, OnOk, OnErr, IfOk};
ghost use Rattle.span_self_time.specs.{Closed.{span_of, IsInTime, AreClosed}, Division.{Owners, owner_of, owners_of, ForSome, HasOwnedSegments, CanAdd, Adds, KeepsOwners, Lengths.{time_at, Gains}, TimeMap.IsTimeMap, Ways.{IsWay, Divides}}, Segments.HasSegmentsWith, Spans.{Span, self_of, self_time, busy_time}};

mod lengths;
mod lone;
mod own_times;
mod segment_stacks;
mod time_map;

use crate::segment::{OwnedSegment, Segment};
use crate::span::ClosedSpan;
use lengths::Lengths;
use segment_stacks::SegmentStacks;
use std::alloc::{AllocError, Global};
use time_map::TimeMap;

// Where the two stacks have to move more segments than these for each span, a search is the quicker.
const MOVES_FOR_A_SPAN: u64 = 128;

/// How time is divided among closed spans. The spans themselves are kept by whoever adds them.
#[derive(Drop)]
pub struct Division {
    way: Way,
    // How many segments the two stacks had to move, about.
    moves: u64,
}

// A single span takes no memory of its own. Of more, two stacks of segments are the quicker where each comes near the last one, and
// slow down with the segments in between; a map, in which each span's place is searched for, doesn't.
#[derive(Drop)]
pub(crate) enum Way {
    Lone(Option<OwnedSegment>),
    Stacked(Box<SegmentStacks>),
    Searched(Box<TimeMap>),
}

impl Division {
    /// The time of no spans. Takes no memory.
    pub fn new() -> Division
        ensures { Divides [] result }
    {
        Division {
            way: Way::Lone(None),
            moves: 0,
        }
    }

    /// The time of no spans, in which each that is added is searched for, from the first on. No reader can distinguish it from `new`'s.
    pub fn searching() -> Division
        ensures { Divides [] result }
    {
        Division {
            way: Way::Lone(None),
            moves: u64::MAX,
        }
    }

    /// A copy, which gives the same times and segments.
    pub fn try_clone(&self, alloc: Global) -> Result<Division, AllocError>
        ensures { IfOk result (λ copy. (spans : List (Span ℕ)) → Divides spans self.now
            → Divides spans copy) }
    {
        Ok(Division {
            way: self.way.try_clone(alloc)?,
            moves: self.moves,
        })
    }

    /// The ticks that belong to the spans of one name.
    pub fn self_of(&self, name: u32) -> u64
        ensures { (spans : List (Span ℕ)) → AreClosed spans → Divides spans self.now
            → result ≡ self_of nat_eq name spans }
    {
        match &self.way {
            Way::Lone(lone) => lone::self_of(lone, name),
            Way::Stacked(stacks) => stacks.times.self_of(name),
            Way::Searched(time_map) => time_map.times.self_of(name),
        }
    }

    /// The ticks that at least one span covers.
    pub fn busy(&self) -> u64
        ensures { (spans : List (Span ℕ)) → AreClosed spans → Divides spans self.now
            → result ≡ busy_time spans }
    {
        match &self.way {
            Way::Lone(lone) => lone::busy(lone),
            Way::Stacked(stacks) => stacks.times.busy(),
            Way::Searched(time_map) => time_map.times.busy(),
        }
    }

    /// How many segments of time the spans make.
    pub fn segment_count(&self) -> u64
        ensures { (spans : List (Span ℕ)) → AreClosed spans → Divides spans self.now
            → HasSegmentsWith spans (λ segments. result ≡ length segments) }
    {
        match &self.way {
            Way::Lone(lone) => lone::segment_count(lone),
            Way::Stacked(stacks) => stacks.segment_count(),
            Way::Searched(time_map) => time_map.stretches.segment_count(),
        }
    }

    /// A segment of time, in ascending order, counted from 0; None from the number of segments on.
    pub fn segment(&self, i: u64) -> Option<&Segment>
        ensures { (spans : List (Span ℕ)) → AreClosed spans → Divides spans self.now
            → HasSegmentsWith spans (λ segments. option_copied result ≡ slice_get segments i) }
    {
        match &self.way {
            Way::Lone(lone) => lone::segment(lone, i),
            Way::Stacked(stacks) => stacks.segment(i),
            Way::Searched(time_map) => time_map.stretches.segment(i),
        }
    }

    /// The ticks that belong to each of the spans, which are all that were added, in their order.
    pub fn self_times(&self, spans: &[ClosedSpan], alloc: Global) -> Result<Vec<u64>, AllocError>
        requires closed { AreClosed (map span_of spans.now) }
        requires division { Divides (map span_of spans.now) self.now }
        ensures { IfOk result (λ times. times.items
            ≡ map (self_time (map span_of spans.now)) (map span_of spans.now)) }
    {
        let mut lengths = Lengths::of(spans, alloc)?;
        self.way.add_lengths(&mut lengths)?;
        let mut times = Vec::with_capacity(alloc, spans.len())?;
        for span in spans {
            times.push(lengths.at(span.at))?;
        }
        Ok(times)
    }

    /// One more span takes the ticks that it covers from no one and from the spans that it outranks; the others are all that
    /// were added. Where memory is refused, no reader sees a change.
    pub fn add(
        &mut self,
        span: &ClosedSpan,
        others: &[ClosedSpan],
        alloc: Global,
    ) -> Result<(), AllocError>
        requires closed { AreClosed (map span_of others.now) }
        requires forward { span.now.start ≤ℤ span.now.until }
        requires in_time { IsInTime (span_of span.now) }
        requires apart { All (λ s. s.at ≢ span.now.at) (map span_of others.now) }
        requires division { Divides (map span_of others.now) self.old }
        ensures ok { OnOk result
            (Divides (map span_of others.now ++ span_of span.now ∷ []) self.new) }
        ensures err { OnErr result (Divides (map span_of others.now) self.new) }
    {
        let owned = OwnedSegment::whole(span);
        self.suit(&owned, others, alloc)?;
        self.way.add(&owned, alloc)?;
        Ok(())
    }

    // Turns to a search among what these spans, which are all that were added, make of the time, where the two stacks had to move
    // too many segments for them, with those for the new one. Where memory is refused, nothing changes.
    fn suit(
        &mut self,
        span: &OwnedSegment,
        spans: &[ClosedSpan],
        alloc: Global,
    ) -> Result<(), AllocError>
        requires { AreClosed (map span_of spans.now) }
        ensures { Divides (map span_of spans.now) self.old
            → Divides (map span_of spans.now) self.new }
    {
        let moves = self.moves.saturating_add(self.way.moves_for(span));
        let too_many = moves / MOVES_FOR_A_SPAN > spans.len() as u64;
        if too_many && !matches!(self.way, Way::Searched(_)) {
            let time_map = time_map_of(spans, alloc)?;
            self.way = Way::Searched(Box::new(alloc, time_map)?);
        }
        self.moves = moves;
        Ok(())
    }
}

impl Way {
    fn try_clone(&self, alloc: Global) -> Result<Way, AllocError>
        ensures { IfOk result (λ copy. KeepsOwners IsWay self.now copy) }
    {
        match self {
            Way::Lone(lone) => Ok(Way::Lone(*lone)),
            Way::Stacked(stacks) => {
                let copy = SegmentStacks::clone(stacks)?;
                Ok(Way::Stacked(Box::new(alloc, copy)?))
            }
            Way::Searched(time_map) => {
                let copy = TimeMap::clone(time_map)?;
                Ok(Way::Searched(Box::new(alloc, copy)?))
            }
        }
    }

    // The span of each segment gains the segment's length.
    fn add_lengths(&self, times: &mut Lengths) -> Result<(), AllocError>
        requires division { ForSome (λ owners. IsWay owners self.now) }
        requires none { (at : ℕ) → time_at times.old at ≡ 0 }
        ensures { (owners : Owners) → IsWay owners self.now → HasOwnedSegments owners (λ segments.
            OnOk result (Gains times.old segments times.new)) }
    {
        match self {
            Way::Lone(lone) => lone::add_lengths(lone, times),
            Way::Stacked(stacks) => stacks.add_lengths(times),
            Way::Searched(time_map) => time_map.stretches.add_lengths(times),
        }
    }

    // The span takes the ticks that it covers from no one and from the spans that it outranks. Where memory is refused,
    // no reader sees a change.
    fn add(&mut self, span: &OwnedSegment, alloc: Global) -> Result<(), AllocError>
        requires { CanAdd IsWay (owner_of span.now) self.old }
        ensures ok { OnOk result (Adds IsWay (owner_of span.now) self.old self.new) }
        ensures err { OnErr result (KeepsOwners IsWay self.old self.new) }
    {
        match self {
            Way::Lone(lone) => {
                *self = lone::with_span(*lone, span, alloc)?;
                Ok(())
            }
            Way::Stacked(stacks) => stacks.add(span),
            Way::Searched(time_map) => time_map.add(span),
        }
    }

    // About how many segments the two stacks would have to move for this span, where these are many.
    fn moves_for(&self, span: &OwnedSegment) -> u64 {
        match self {
            Way::Stacked(stacks) => stacks.moves_for(span),
            Way::Lone(_) | Way::Searched(_) => 0,
        }
    }
}

fn time_map_of(spans: &[ClosedSpan], alloc: Global) -> Result<TimeMap, AllocError>
    requires { AreClosed (map span_of spans.now) }
    ensures { IfOk result (IsTimeMap (owners_of (map span_of spans.now))) }
{
    let mut time_map = TimeMap::new(alloc);
    for span in spans {
        time_map.add(&OwnedSegment::whole(span))?;
    }
    Ok(time_map)
}
