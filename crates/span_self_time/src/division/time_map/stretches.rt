//! Time cut into stretches, each of one span or of none, so that any span finds its place quickly.
ghost use Rattle.std.specs.{BTreeMap.IsOrdered, Option.option_map, Ordering.int_cmp, Prelude.{◌≡◌, ◌≢◌, ◌⊎◌, ℕ, ℤ, ◌≤ℤ◌, ◌<ℤ◌, IsSome, MatchOption, OnOk, OnErr, Some, None, length, map, slice_get, option_copied}};
ghost use Rattle.span_self_time.specs.{least_time, Closed.greatest_until, Division.{Owners, owner_of, ForSome, Lengths.{CanGain, Gains}, TimeMap.Stretches.{at, IsLast, IsDivided, IsEnd, IsNext, IsPut, IsJoining, AreWhole, segments_in}}, Spans.Span, declared.segment.OwnedSegment.OwnedSegment};

use crate::division::lengths::Lengths;
use crate::segment::{OwnedSegment, Segment};
use std::alloc::{AllocError, Global};
use std::collections::BTreeMap;
use std::ops::Bound;

/// From each time in it up to the next, time is of the segment, or of none.
#[derive(Clone, Drop)]
pub(crate) struct Stretches {
    map: BTreeMap<i64, Option<OwnedSegment>>,
}

impl Stretches {
    pub(crate) fn new(alloc: Global) -> Stretches
        ensures { (q : ℤ) → at result q ≡ None }
    {
        Stretches {
            map: BTreeMap::new(alloc),
        }
    }

    /// How many segments there are.
    pub(crate) fn segment_count(&self) -> u64
        ensures count { result ≡ length (segments_in self.now) }
        ensures ordered { IsOrdered int_cmp self.now.map }
    {
        let mut count = 0;
        for owned in self.map.values() {
            if owned.is_some() {
                count += 1;
            }
        }
        count
    }

    /// A segment, in ascending order, counted from 0.
    pub(crate) fn segment(&self, i: u64) -> Option<&Segment>
        ensures segment { option_copied result
            ≡ slice_get (map (λ owned. owned.segment) (segments_in self.now)) i }
        ensures ordered { IsOrdered int_cmp self.now.map }
    {
        let mut left = i;
        for owned in self.map.values() {
            if let Some(owned) = owned {
                if left == 0 {
                    return Some(&owned.segment);
                }
                left -= 1;
            }
        }
        None
    }

    /// The span of each segment gains the segment's length.
    pub(crate) fn add_lengths(&self, times: &mut Lengths) -> Result<(), AllocError>
        requires { IsOrdered int_cmp self.now.map → CanGain times.old (segments_in self.now) }
        ensures gains { OnOk result (Gains times.old (segments_in self.now) times.new) }
        ensures ordered { IsOrdered int_cmp self.now.map }
    {
        for owned in self.map.values() {
            if let Some(owned) = owned {
                times.gain_segment(owned)?;
            }
        }
        Ok(())
    }

    /// The last stretch that starts no later than `time`.
    pub(crate) fn last_at(&self, time: i64) -> Option<(i64, Option<OwnedSegment>)>
        ensures { MatchOption result ((q : ℤ) → q ≤ℤ time → at self.now q ≡ None)
            (λ e. IsLast (at self.now) time e.0 e.1) }
    {
        match self.map.range(..=time).next_back() {
            Some((start, owned)) => Some((*start, *owned)),
            None => None,
        }
    }

    /// The segment that `time` lies in, if there is one.
    pub(crate) fn segment_at(&self, time: i64) -> Option<OwnedSegment>
        ensures owner { (owners : Owners) → IsDivided owners (at self.now)
            → option_map owner_of result ≡ owners time }
        ensures starts { IsSome (at self.now time) → at self.now time ≡ Some result }
    {
        match self.last_at(time) {
            Some((_, owned)) => owned,
            None => None,
        }
    }

    /// The end of the stretch that starts at `time`: of the segment, or where the next one starts.
    pub(crate) fn end_of(&self, time: i64, held: &Option<OwnedSegment>) -> i64
        requires divided { ForSome (λ owners. IsDivided owners (at self.now)) }
        requires held { at self.now time ≡ Some held.now }
        requires later { (q : ℤ) × (time <ℤ q) × IsSome (at self.now q) }
        ensures { IsNext (at self.now) time result }
    {
        match held {
            Some(owned) => owned.segment.until,
            None => self.next_after(time),
        }
    }

    // The start of the stretch after `time`.
    fn next_after(&self, time: i64) -> i64
        requires later { (q : ℤ) × (time <ℤ q) × IsSome (at self.now q) }
        ensures { IsNext (at self.now) time result }
    {
        let mut later = self.map.range((Bound::Excluded(time), Bound::Unbounded));
        let Some((next, _)) = later.next() else {
            unreachable!();
        };
        *next
    }

    /// Makes a stretch start at `time`. Where memory is refused, nothing changes.
    pub(crate) fn split(&mut self, time: i64) -> Result<(), AllocError>
        requires from_in_time { least_time ≤ℤ time }
        requires to_in_time { time ≤ℤ greatest_until }
        ensures divided { OnOk result ((owners : Owners) → IsDivided owners (at self.old)
            → IsDivided owners (at self.new)) }
        ensures starts { OnOk result (IsSome (at self.new time)) }
        ensures keeps { OnOk result ((owners : Owners) (q : ℤ) → IsDivided owners (at self.old)
            → IsSome (at self.old q) → IsSome (at self.new q)) }
        ensures ends { OnOk result ((owners : Owners) (t : ℤ) (o : Span ℕ)
            → IsDivided owners (at self.old) → IsEnd (at self.new) t o
            → (t ≡ time) ⊎ IsEnd (at self.old) t o) }
        ensures err { OnErr result ((q : ℤ) → at self.new q ≡ at self.old q) }
    {
        let Some((start, held)) = self.last_at(time) else {
            self.put(time, None)?;
            return Ok(());
        };
        if start == time {
            return Ok(());
        }
        let Some(owned) = held else {
            self.put(time, None)?;
            return Ok(());
        };
        self.put(time, Some(owned.between(time, owned.segment.until)))?;
        self.write(start, owned.between(owned.segment.start, time));
        Ok(())
    }

    /// Where a segment of one span ends at `time` and another of it starts, they become one.
    pub(crate) fn join(&mut self, time: i64)
        requires from_in_time { least_time ≤ℤ time }
        ensures { IsJoining time self.old self.new }
    {
        let Some(later) = self.segment_from(time) else {
            return;
        };
        let Some((start, held)) = self.last_at(time - 1) else {
            return;
        };
        let Some(owned) = held else {
            return;
        };
        if owned.is_of_span_of(&later) {
            self.remove(time);
            self.write(
                start,
                owned.between(owned.segment.start, later.segment.until),
            );
        }
    }

    /// Makes stretches start at both times. Where memory is refused, the owners stay, and each segment is still whole.
    pub(crate) fn split_both(&mut self, from: i64, until: i64) -> Result<(), AllocError>
        requires from_in_time { least_time ≤ℤ from }
        requires forward { from ≤ℤ until }
        requires to_in_time { until ≤ℤ greatest_until }
        ensures divided { (owners : Owners) → IsDivided owners (at self.old)
            → IsDivided owners (at self.new) }
        ensures from { OnOk result ((owners : Owners) → IsDivided owners (at self.old)
            → IsSome (at self.new from)) }
        ensures until { OnOk result (IsSome (at self.new until)) }
        ensures ends { OnOk result ((owners : Owners) (t : ℤ) (o : Span ℕ)
            → IsDivided owners (at self.old) → IsEnd (at self.new) t o
            → (t ≡ until) ⊎ ((t ≡ from) ⊎ IsEnd (at self.old) t o)) }
        ensures err { OnErr result ((owners : Owners) → IsDivided owners (at self.old)
            → AreWhole owners (at self.old) → AreWhole owners (at self.new)) }
    {
        self.split(from)?;
        if let Err(refused) = self.split(until) {
            self.join(from);
            return Err(refused);
        }
        Ok(())
    }

    // The segment that starts at `time`.
    fn segment_from(&self, time: i64) -> Option<OwnedSegment>
        ensures { MatchOption result ((p : OwnedSegment) → at self.now time ≢ Some (Some p))
            (λ p. at self.now time ≡ Some (Some p)) }
    {
        match self.map.get(&time) {
            Some(Some(owned)) => Some(*owned),
            Some(None) => None,
            None => None,
        }
    }

    fn put(&mut self, time: i64, owned: Option<OwnedSegment>) -> Result<(), AllocError>
        ensures ok { OnOk result (IsPut (at self.old) time (Some owned) (at self.new)) }
        ensures err { OnErr result ((q : ℤ) → at self.new q ≡ at self.old q) }
    {
        self.map.insert(time, owned)?;
        Ok(())
    }

    /// What starts at `start` becomes the segment.
    pub(crate) fn write(&mut self, start: i64, owned: OwnedSegment)
        requires { IsSome (at self.old start) }
        ensures { IsPut (at self.old) start (Some (Some owned)) (at self.new) }
    {
        if self.map.insert(start, Some(owned)).is_err() {
            unreachable!();
        }
    }

    fn remove(&mut self, time: i64)
        ensures { IsPut (at self.old) time None (at self.new) }
    {
        self.map.remove(&time);
    }
}
