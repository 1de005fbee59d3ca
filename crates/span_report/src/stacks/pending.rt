//! Frames that are still to be visited, each with the time through which its stack stands.
ghost use Rattle.std.specs.Prelude.{◌≡◌, ◌^◌, ◌≤◌, ◌≤ℤ◌, length, IfOk};
ghost use Rattle.span_report.specs.{least_time, greatest_until, Stacks.Pending.{IsSplit, nearness}};

use super::ends::RankedSpans;
use span_event::{Text, distance};
use std::alloc::AllocError;
use std::cmp::Ordering;

// A time, and from which span on spans may stand in it.
#[derive(Clone, Copy)]
pub(crate) struct Stretch {
    pub from: i64,
    pub until: i64,
    pub next: usize,
}

// A frame that is still to be visited. Through this stretch it stands on so many frames of the stack that was visited last.
#[derive(Clone, Copy)]
pub(crate) struct PendingFrame<'a> {
    pub below: usize,
    pub name: &'a Text,
    pub over: Stretch,
}

// Puts the frames that stand in the stretch, on so many others, to those that were found, and answers how much of it is bare.
pub(crate) fn split<'a>(
    spans: &RankedSpans<'a>,
    below: usize,
    whole: &Stretch,
    found: &mut Vec<PendingFrame<'a>>,
) -> Result<u64, AllocError>
    requires from { least_time ≤ℤ whole.now.from }
    requires forward { whole.now.from ≤ℤ whole.now.until }
    requires until { whole.now.until ≤ℤ greatest_until }
    requires next { whole.now.next ≤ length spans.now }
    ensures { IfOk result (λ time.
        IsSplit spans.now below whole.now time found.old.items found.new.items) }
{
    let mut rest = *whole;
    let mut time = 0u64;
    while let Some(frame) = spans.first_pending(below, &rest) {
        time += distance(rest.from, frame.over.from);
        rest.from = frame.over.until;
        rest.next = frame.over.next;
        found.push(frame)?;
    }
    Ok(time + distance(rest.from, rest.until))
}

// Which of two frames is nearer: that on more frames, and of as many that with the lesser name.
pub(crate) fn compare_nearness(a: &PendingFrame, b: &PendingFrame) -> Ordering
    ensures { result ≡ nearness a.now b.now }
{
    a.below.cmp(&b.below).then_with(|| b.name.cmp(a.name))
}
