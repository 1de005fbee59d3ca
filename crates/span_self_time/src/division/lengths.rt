//! How long the segments of single spans are together, by the positions of the events that opened them.
ghost use Rattle.std.specs.Prelude.{◌≡◌, ◌+◌, ◌<◌, ◌^◌, ◌∷◌, [], ◌==◌, ℕ, if◌then◌else◌, IfOk, OnOk};
ghost use Rattle.span_self_time.specs.Division.{own_in, Lengths.{time_at, CanGain, Gains}, SegmentStacks.segment_length};

use super::own_times::own_in;
use crate::segment::OwnedSegment;
use crate::span::ClosedSpan;
use indexmap::IndexMap;
use std::alloc::{AllocError, Global};

// Where there are no more positions than these for each span, a place for each position is the quicker.
const POSITIONS_FOR_A_SPAN: usize = 8;

/// A place for each of the first positions, if any, and a map for the others.
#[derive(Drop)]
pub(crate) struct Lengths {
    near: Vec<u64>,
    far: IndexMap<u32, u64>,
}

impl Lengths {
    /// No time of any of these spans.
    pub(crate) fn of(spans: &[ClosedSpan], alloc: Global) -> Result<Lengths, AllocError>
        ensures { IfOk result (λ times. (at : ℕ) → time_at times at ≡ 0) }
    {
        let mut near = Vec::new(alloc);
        near.resize(places_for(spans), 0)?;
        Ok(Lengths {
            near,
            far: IndexMap::new(alloc),
        })
    }

    pub(crate) fn at(&self, at: u32) -> u64
        ensures { result ≡ time_at self.now at }
    {
        match self.near.get(at as usize) {
            Some(time) => *time,
            None => own_in(&self.far, at),
        }
    }

    /// The span of each segment gains the segment's length.
    pub(crate) fn gain_segments(&mut self, segments: &[OwnedSegment]) -> Result<(), AllocError>
        requires { CanGain self.old segments.now }
        ensures { OnOk result (Gains self.old segments.now self.new) }
    {
        for owned in segments {
            self.gain_segment(owned)?;
        }
        Ok(())
    }

    /// The segment's span gains its length.
    pub(crate) fn gain_segment(&mut self, owned: &OwnedSegment) -> Result<(), AllocError>
        requires { time_at self.old owned.now.segment.at + segment_length owned.now < 2 ^ 64 }
        ensures { OnOk result (Gains self.old (owned.now ∷ []) self.new) }
    {
        self.gain(owned.segment.at, owned.length())
    }

    fn gain(&mut self, at: u32, length: u64) -> Result<(), AllocError>
        requires { time_at self.old at + length < 2 ^ 64 }
        ensures { OnOk result ((other : ℕ) → time_at self.new other
            ≡ time_at self.old other + (if at == other then length else 0)) }
    {
        let place = at as usize;
        if place < self.near.len() {
            self.near[place] += length;
            return Ok(());
        }
        gain_far(&mut self.far, at, length)
    }
}

fn gain_far(far: &mut IndexMap<u32, u64>, at: u32, length: u64) -> Result<(), AllocError>
    requires { own_in far.old at + length < 2 ^ 64 }
    ensures { OnOk result ((other : ℕ) → own_in far.new other
        ≡ own_in far.old other + (if at == other then length else 0)) }
{
    if let Some(held) = far.get_mut(&at) {
        *held += length;
        return Ok(());
    }
    far.insert(at, length)?;
    Ok(())
}

// A place for each position up to the last of the spans' own, or none where these lie far apart.
fn places_for(spans: &[ClosedSpan]) -> usize {
    let mut end = 0usize;
    for span in spans {
        end = end.max(span.at as usize + 1);
    }
    if end / POSITIONS_FOR_A_SPAN <= spans.len() {
        end
    } else {
        0
    }
}
