//! The ends of spans that start together.
ghost use Rattle.std.specs.Prelude.{◌≡◌, ◌<ℤ◌, [], IfSome};
ghost use Rattle.span_self_time.specs.Division.{Owners, TimeMap.Ties.{IsBarred, AreBarred}};

use std::alloc::Global;
use std::collections::BTreeSet;

/// Starts and ends of spans, of which a new one that starts there and ends later, or starts sooner, gets no time. It is a hint:
/// where memory is refused, an end is left out, and a walk may have to go from owner to owner.
#[derive(Clone, Drop)]
pub(crate) struct Ties {
    ends: BTreeSet<(i64, i64)>,
}

impl Ties {
    pub(crate) fn new(alloc: Global) -> Ties
        ensures { result.ends.keys ≡ [] }
    {
        Ties {
            ends: BTreeSet::new(alloc),
        }
    }

    /// The last of the ends sooner than `time` at this start.
    pub(crate) fn last_before(&self, start: i64, time: i64) -> Option<i64>
        ensures barred { (owners : Owners) → AreBarred owners self.now
            → IfSome result (IsBarred owners start) }
        ensures sooner { IfSome result (λ end. end <ℤ time) }
    {
        match self.ends.range(..(start, time)).next_back() {
            Some((first, end)) => {
                if *first == start && *end < time {
                    return Some(*end);
                }
                None
            }
            None => None,
        }
    }

    pub(crate) fn note(&mut self, start: i64, end: i64)
        ensures { (owners : Owners) → AreBarred owners self.old → IsBarred owners start end
            → AreBarred owners self.new }
    {
        match self.ends.insert((start, end)) {
            Ok(_) => {}
            Err(_) => {}
        }
    }
}
