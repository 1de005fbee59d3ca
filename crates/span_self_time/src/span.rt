//! Closed spans.
ghost use Rattle.std.specs.Prelude.{◌≡◌};
ghost use Rattle.span_self_time.specs.{Closed.span_of, Spans.outranks};

use crate::segment::OwnedSegment;
use span_event::Args;

/// A span that has ended, with the number of its name. It covers the ticks from `start` to before `until`; `at` is the
/// position in the journal of the event that opened it.
#[derive(Debug, Drop)]
pub struct ClosedSpan {
    pub name: u32,
    pub start: i64,
    pub until: i64,
    pub at: u32,
    pub args: Args,
}

impl ClosedSpan {
    /// Whether this span ranks above the other.
    pub fn outranks(&self, other: &ClosedSpan) -> bool
        ensures { result ≡ outranks (span_of self.now) (span_of other.now) }
    {
        OwnedSegment::whole(self).outranks(&OwnedSegment::whole(other))
    }
}
