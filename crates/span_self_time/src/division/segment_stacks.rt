//! The time of a thread as two stacks of its segments, those before a cursor and those behind it.
ghost use Rattle.std.specs.Prelude.{true, false, map, option_copied, ◌≡◌, ◌≤◌, ◌<◌, ◌+◌, ◌≤ℤ◌, ◌<ℤ◌, ◌++◌, reverse, length, Some, slice_get, vec_len, vec_capacity, OnOk, OnErr};
ghost use Rattle.span_self_time.specs.{Division.{Owners, owner_of, taken, Belong, ForSome, CanAdd, Adds, KeepsOwners, Lengths.{CanGain, Gains}, SegmentStacks.{ArePast, IsOnly, segments_of, piece, ends_by, lasts_beyond, starts_before, AreSegmentStacks, IsMoved, IsEntering, IsTaking, IsAhead, IsPassing, IsTakenBack}}, Spans.outranks};

use super::lengths::Lengths;
use super::own_times::OwnTimes;
use crate::segment::{OwnedSegment, Segment};
use std::alloc::{AllocError, Global};

// Up to so many segments the cursor passes without being asked how many.
const FEW: usize = 64;

/// The segments of the time in order, with a cursor in between, so that a span that lies near the last one costs no more than what
/// it covers.
#[derive(Clone, Drop)]
pub(crate) struct SegmentStacks {
    past: Vec<OwnedSegment>,
    // The last comes first.
    future: Vec<OwnedSegment>,
    pub(super) times: OwnTimes,
}

impl SegmentStacks {
    pub(crate) fn new(alloc: Global) -> SegmentStacks
        ensures { AreSegmentStacks (λ u. None) result }
    {
        SegmentStacks {
            past: Vec::new(alloc),
            future: Vec::new(alloc),
            times: OwnTimes::new(alloc),
        }
    }

    pub(crate) fn segment_count(&self) -> u64
        ensures { result ≡ length (segments_of self.now.past.items self.now.future.items) }
    {
        (self.past.len() + self.future.len()) as u64
    }

    pub(crate) fn segment(&self, i: u64) -> Option<&Segment>
        ensures { option_copied result ≡ slice_get (map (λ owned. owned.segment)
            (segments_of self.now.past.items self.now.future.items)) i }
    {
        let i = i as usize;
        if let Some(owned) = self.past.get(i) {
            return Some(&owned.segment);
        }
        let behind = i - self.past.len();
        if behind < self.future.len() {
            Some(&self.future[self.future.len() - 1 - behind].segment)
        } else {
            None
        }
    }

    /// The span of each segment gains the segment's length.
    pub(crate) fn add_lengths(&self, times: &mut Lengths) -> Result<(), AllocError>
        requires { CanGain times.old (segments_of self.now.past.items self.now.future.items) }
        ensures { OnOk result
            (Gains times.old (segments_of self.now.past.items self.now.future.items) times.new) }
    {
        times.gain_segments(&self.past)?;
        times.gain_segments(&self.future)?;
        Ok(())
    }

    /// The span takes the ticks that it covers from no one and from the spans that it outranks. Where memory is refused,
    /// only the cursor may have moved, which no reader sees.
    pub(crate) fn add(&mut self, span: &OwnedSegment) -> Result<(), AllocError>
        requires { CanAdd AreSegmentStacks (owner_of span.now) self.old }
        ensures ok { OnOk result (Adds AreSegmentStacks (owner_of span.now) self.old self.new) }
        ensures err { OnErr result (KeepsOwners AreSegmentStacks self.old self.new) }
    {
        if span.span_start == span.span_until {
            return Ok(());
        }
        self.rewind(span.span_start)?;
        self.advance(span.span_start)?;
        self.past
            .reserve(self.future.len().saturating_add(1).saturating_mul(2))?;
        self.times.keep(span.segment.name)?;
        let entered = self.enter(span);
        let time = self.go_through(span, entered);
        self.finish(span, time);
        Ok(())
    }

    /// About how many segments the cursor has to pass for this span, where these are many: half of them, or more.
    pub(crate) fn moves_for(&self, span: &OwnedSegment) -> u64 {
        let back = passed(&self.past, |owned| owned.segment.until > span.span_start);
        let on = passed(&self.future, |owned| owned.segment.start < span.span_until);
        back.saturating_add(on)
    }

    // Moves the cursor back, behind the segments that end no later than `time`.
    fn rewind(&mut self, time: i64) -> Result<(), AllocError>
        ensures moved { IsMoved self.old self.new }
        ensures past { OnOk result (lasts_beyond time (reverse self.new.past.items) ≡ false) }
    {
        while lasts_beyond(&self.past, time) {
            self.future.reserve(1)?;
            let Some(owned) = self.past.pop() else {
                unreachable!();
            };
            self.future.push_reserved(owned);
        }
        Ok(())
    }

    // Moves the cursor on, behind the segments that end no later than `time`.
    fn advance(&mut self, time: i64) -> Result<(), AllocError>
        ensures moved { IsMoved self.old self.new }
        ensures past { lasts_beyond time (reverse self.old.past.items) ≡ false
            → lasts_beyond time (reverse self.new.past.items) ≡ false }
        ensures future { OnOk result (ends_by time (reverse self.new.future.items) ≡ false) }
    {
        while ends_by(&self.future, time) {
            self.past.reserve(1)?;
            let Some(owned) = self.future.pop() else {
                unreachable!();
            };
            self.past.push_reserved(owned);
        }
        Ok(())
    }

    // Passes the segment that the span starts in, if there is one. Returns the time before which all is taken.
    fn enter(&mut self, span: &OwnedSegment) -> i64
        requires { ForSome (IsEntering (owner_of span.now) self.old) }
        ensures { (owners : Owners) → IsEntering (owner_of span.now) self.old owners
            → IsTaking (owner_of span.now) result self.new owners }
    {
        if !starts_before(&self.future, span.span_start) {
            return span.span_start;
        }
        let Some(owned) = self.future.pop() else {
            unreachable!();
        };
        self.pass(span, owned, span.span_start)
    }

    // Passes the other segments that the span reaches, each after the gap before it. Returns the time before which all is taken.
    fn go_through(&mut self, span: &OwnedSegment, from: i64) -> i64
        requires { ForSome (IsTaking (owner_of span.now) from self.old) }
        ensures taken { (owners : Owners) → IsTaking (owner_of span.now) from self.old owners
            → IsTaking (owner_of span.now) result self.new owners }
        ensures gap { starts_before span.now.span_until (reverse self.new.future.items) ≡ false }
    {
        let mut time = from;
        while starts_before(&self.future, span.span_until) {
            time = self.go_on(span, time);
        }
        time
    }

    // Passes the segment that comes next, after the gap before it. Returns the time before which all is taken.
    fn go_on(&mut self, span: &OwnedSegment, time: i64) -> i64
        requires taken { ForSome (IsTaking (owner_of span.now) time self.old) }
        requires next { starts_before span.now.span_until (reverse self.old.future.items) ≡ true }
        ensures taken { (owners : Owners) → IsTaking (owner_of span.now) time self.old owners
            → IsTaking (owner_of span.now) result self.new owners }
        ensures on { time <ℤ result }
    {
        let Some(owned) = self.future.pop() else {
            unreachable!();
        };
        self.fill_before(span, &owned, time);
        let start = owned.segment.start;
        self.pass(span, owned, start)
    }

    // Gives the span the gap from `time` to the segment, which has left `future`.
    fn fill_before(&mut self, span: &OwnedSegment, owned: &OwnedSegment, time: i64)
        requires ahead { ForSome (IsAhead (owner_of span.now) time owned.now self.old) }
        requires within { owned.now.segment.start <ℤ span.now.span_until }
        ensures { (owners : Owners) → IsAhead (owner_of span.now) time owned.now self.old owners
            → IsPassing (owner_of span.now) owned.now.segment.start owned.now self.new owners }
    {
        if time < owned.segment.start {
            self.times.charge(span, &None, time, owned.segment.start);
            push_own(&mut self.past, span, time, owned.segment.start);
        }
    }

    // Gives the span the gap before its end.
    fn finish(&mut self, span: &OwnedSegment, time: i64)
        requires taken { ForSome (IsTaking (owner_of span.now) time self.old) }
        requires gap { starts_before span.now.span_until (reverse self.old.future.items) ≡ false }
        ensures { (owners : Owners) → IsTaking (owner_of span.now) time self.old owners
            → AreSegmentStacks (taken (owner_of span.now) owners) self.new }
    {
        if time < span.span_until {
            self.times.charge(span, &None, time, span.span_until);
            push_own(&mut self.past, span, time, span.span_until);
        }
    }

    // Puts the segment back, but for what the span takes of it from `from` on. Returns the time before which all is taken.
    fn pass(&mut self, span: &OwnedSegment, owned: OwnedSegment, from: i64) -> i64
        requires { ForSome (IsPassing (owner_of span.now) from owned self.old) }
        ensures taken { (owners : Owners) → IsPassing (owner_of span.now) from owned self.old owners
            → IsTaking (owner_of span.now) result self.new owners }
        ensures on { from <ℤ result }
    {
        if span.outranks(&owned) {
            return self.cede(span, &owned, from);
        }
        let until = owned.segment.until;
        self.past.push_reserved(owned);
        until
    }

    // The span outranks the segment's span, and takes what it covers from `from` on.
    fn cede(&mut self, span: &OwnedSegment, owned: &OwnedSegment, from: i64) -> i64
        requires next { ForSome (IsPassing (owner_of span.now) from owned.now self.old) }
        requires above { outranks (owner_of span.now) (owner_of owned.now) ≡ true }
        ensures taken { (owners : Owners)
            → IsPassing (owner_of span.now) from owned.now self.old owners
            → IsTaking (owner_of span.now) result self.new owners }
        ensures on { from <ℤ result }
    {
        push_between(&mut self.past, owned, owned.segment.start, from);
        let until = owned.segment.until.min(span.span_until);
        self.times.charge(span, &Some(*owned), from, until);
        push_own(&mut self.past, span, from, until);
        push_between(&mut self.future, owned, until, owned.segment.until);
        until
    }
}

// Appends what the span has from `from` to before `until`, as one segment with what it has right before.
fn push_own(past: &mut Vec<OwnedSegment>, span: &OwnedSegment, from: i64, until: i64)
    requires lasts { from <ℤ until }
    requires room { vec_len past.old < vec_capacity past.old }
    ensures past { (owners : Owners) → IsOnly (owner_of span.now) owners
        → Belong owners from until (Some (owner_of span.now))
        → ArePast owners from (reverse past.old.items)
        → ArePast owners until (reverse past.new.items) }
    ensures len { vec_len past.new ≤ vec_len past.old + 1 }
    ensures capacity { vec_capacity past.new ≡ vec_capacity past.old }
{
    let start = take_back(past, span, from);
    past.push_reserved(span.between(start, until));
}

// Takes the last segment back where it is of the span and ends at `from`. Returns from when on the span's time reaches to `from`.
fn take_back(past: &mut Vec<OwnedSegment>, span: &OwnedSegment, from: i64) -> i64
    ensures past { (owners : Owners) → IsOnly (owner_of span.now) owners
        → ArePast owners from (reverse past.old.items)
        → IsTakenBack (owner_of span.now) result from past.new.items owners }
    ensures len { vec_len past.new ≤ vec_len past.old }
    ensures capacity { vec_capacity past.new ≡ vec_capacity past.old }
{
    match past.last() {
        Some(last) if last.segment.at == span.segment.at && last.segment.until == from => {
            let start = last.segment.start;
            past.pop();
            start
        }
        _ => from,
    }
}

// Appends what lies of the segment from `start` to before `until`, if anything.
fn push_between(segments: &mut Vec<OwnedSegment>, owned: &OwnedSegment, start: i64, until: i64)
    requires { vec_len segments.old < vec_capacity segments.old }
    ensures items { segments.new.items ≡ segments.old.items ++ piece owned.now start until }
    ensures len { vec_len segments.new
        ≡ vec_len segments.old + length (piece owned.now start until) }
    ensures capacity { vec_capacity segments.new ≡ vec_capacity segments.old }
{
    if start < until {
        segments.push_reserved(owned.between(start, until));
    }
}

fn lasts_beyond(segments: &Vec<OwnedSegment>, time: i64) -> bool
    ensures { result ≡ lasts_beyond time (reverse segments.now.items) }
{
    match segments.last() {
        Some(owned) => owned.segment.until > time,
        None => false,
    }
}

fn ends_by(segments: &Vec<OwnedSegment>, time: i64) -> bool
    ensures { result ≡ ends_by time (reverse segments.now.items) }
{
    match segments.last() {
        Some(owned) => owned.segment.until <= time,
        None => false,
    }
}

fn starts_before(segments: &Vec<OwnedSegment>, time: i64) -> bool
    ensures { result ≡ starts_before time (reverse segments.now.items) }
{
    match segments.last() {
        Some(owned) => owned.segment.start < time,
        None => false,
    }
}

// At least half as many segments as are passed, from the last on, or 0 where these are few.
fn passed<P: Fn(&OwnedSegment) -> bool>(segments: &Vec<OwnedSegment>, is_passed: P) -> u64
    requires { P.IsAlwaysCallable is_passed }
{
    let mut reach = FEW;
    while reach < segments.len() && is_passed(&segments[segments.len() - reach]) {
        reach *= 2;
    }
    (reach - FEW) as u64
}
