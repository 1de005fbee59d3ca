//! The time of at most one span, which has all that it covers.
ghost use Rattle.std.specs.Prelude.{◌≡◌, ℕ, nat_eq, List, map, length, slice_get, option_copied, IfOk, OnOk};
ghost use Rattle.span_self_time.specs.{Closed.AreClosed, Division.{Owners, IsNew, AreSettled, CanAdd, owner_of, owners_of, taken, Lengths.{CanGain, Gains}, Lone.{IsLone, segments_of_lone}, Ways.IsWay}, Spans.{Span, self_of, busy_time}};

use super::Way;
use super::lengths::Lengths;
use super::segment_stacks::SegmentStacks;
use crate::segment::{OwnedSegment, Segment};
use std::alloc::{AllocError, Global};

pub(crate) fn self_of(lone: &Option<OwnedSegment>, name: u32) -> u64
    ensures { (spans : List (Span ℕ)) → AreClosed spans → IsLone (owners_of spans) lone.now
        → result ≡ self_of nat_eq name spans }
{
    match lone {
        Some(owned) if owned.segment.name == name => owned.length(),
        _ => 0,
    }
}

pub(crate) fn busy(lone: &Option<OwnedSegment>) -> u64
    ensures { (spans : List (Span ℕ)) → AreClosed spans → IsLone (owners_of spans) lone.now
        → result ≡ busy_time spans }
{
    match lone {
        Some(owned) => owned.length(),
        None => 0,
    }
}

pub(crate) fn segment_count(lone: &Option<OwnedSegment>) -> u64
    ensures { result ≡ length (segments_of_lone lone.now) }
{
    match lone {
        Some(_) => 1,
        None => 0,
    }
}

pub(crate) fn segment(lone: &Option<OwnedSegment>, i: u64) -> Option<&Segment>
    ensures { option_copied result
        ≡ slice_get (map (λ owned. owned.segment) (segments_of_lone lone.now)) i }
{
    match lone {
        Some(owned) if i == 0 => Some(&owned.segment),
        _ => None,
    }
}

/// The span gains the length of its segment.
pub(crate) fn add_lengths(
    lone: &Option<OwnedSegment>,
    times: &mut Lengths,
) -> Result<(), AllocError>
    requires { CanGain times.old (segments_of_lone lone.now) }
    ensures { OnOk result (Gains times.old (segments_of_lone lone.now) times.new) }
{
    match lone {
        Some(owned) => times.gain_segment(owned),
        None => Ok(()),
    }
}

/// The time once another span has taken its own: two stacks of segments, where both last.
pub(crate) fn with_span(
    lone: Option<OwnedSegment>,
    span: &OwnedSegment,
    alloc: Global,
) -> Result<Way, AllocError>
    requires { CanAdd IsLone (owner_of span.now) lone }
    ensures { IfOk result (λ way. (owners : Owners) → IsLone owners lone
        → IsNew (owner_of span.now) owners → AreSettled owners
        → IsWay (taken (owner_of span.now) owners) way) }
{
    if span.span_start == span.span_until {
        return Ok(Way::Lone(lone));
    }
    let Some(owned) = lone else {
        let whole = span.between(span.span_start, span.span_until);
        return Ok(Way::Lone(Some(whole)));
    };
    let mut stacks = SegmentStacks::new(alloc);
    stacks.add(&owned)?;
    stacks.add(span)?;
    let stacks = Box::new(alloc, stacks)?;
    Ok(Way::Stacked(stacks))
}
