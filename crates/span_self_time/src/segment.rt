//! Segments of time with an owner.
ghost use Rattle.std.specs.{Bool.{OnTrue, OnFalse}, Option.option_map, Prelude.{◌≡◌, ◌≢◌}};
ghost use Rattle.span_self_time.specs.{Division.{owner_of, claims, between, whole, SegmentStacks.segment_length}, Spans.outranks};

use crate::span::ClosedSpan;
use span_event::distance;

/// A stretch of time that belongs to one closed span: no span that covers it ranks above. It holds the ticks from `start`
/// to before `until`. `name` is the number of the span's name, and `at` the position in the journal of the event that opened it.
#[derive(Clone, Copy, Debug, PartialEq, Eq)]
pub struct Segment {
    pub start: i64,
    pub until: i64,
    pub name: u32,
    pub at: u32,
}

/// A segment with the start and the end of the span that owns it, which say how that span ranks.
#[derive(Clone, Copy, Debug)]
pub(crate) struct OwnedSegment {
    pub segment: Segment,
    pub span_start: i64,
    pub span_until: i64,
}

impl OwnedSegment {
    pub(crate) fn whole(span: &ClosedSpan) -> OwnedSegment
        ensures { result ≡ whole span.now }
    {
        OwnedSegment {
            segment: Segment {
                start: span.start,
                until: span.until,
                name: span.name,
                at: span.at,
            },
            span_start: span.start,
            span_until: span.until,
        }
    }

    /// Another segment of the same span.
    pub(crate) fn between(&self, start: i64, until: i64) -> OwnedSegment
        ensures { result ≡ between self.now start until }
    {
        OwnedSegment {
            segment: Segment {
                start,
                until,
                ..self.segment
            },
            ..*self
        }
    }

    /// The ticks of the segment; none where it ends sooner than it starts.
    pub(crate) fn length(&self) -> u64
        ensures { result ≡ segment_length self.now }
    {
        distance(self.segment.start, self.segment.until)
    }

    pub(crate) fn outranks(&self, other: &OwnedSegment) -> bool
        ensures { result ≡ outranks (owner_of self.now) (owner_of other.now) }
    {
        other.span_start < self.span_start
            || (self.span_start == other.span_start
                && (self.span_until < other.span_until
                    || (self.span_until == other.span_until && other.segment.at < self.segment.at)))
    }

    /// Whether the span takes time from the owner, or from no one.
    pub(crate) fn claims(&self, owner: &Option<OwnedSegment>) -> bool
        ensures { result ≡ claims (owner_of self.now) (option_map owner_of owner.now) }
    {
        match owner {
            Some(owned) => self.outranks(owned),
            None => true,
        }
    }

    pub(crate) fn is_of_span_of(&self, other: &OwnedSegment) -> bool
        ensures same { OnTrue result (owner_of self.now ≡ owner_of other.now) }
        ensures differs { OnFalse result (owner_of self.now ≢ owner_of other.now) }
    {
        self.segment.at == other.segment.at
            && self.segment.name == other.segment.name
            && self.span_start == other.span_start
            && self.span_until == other.span_until
    }
}
