//! The frames of a thread one after another: of those that are pending the nearest is visited, and those that stand on it are next.
ghost use Rattle.std.specs.Prelude.{◌≤◌, length, IfOk, OnOk};
ghost use Rattle.span_report.specs.{AreThreadSpans, Stacks.Descent.{IsNextSplit, IsPopped, IsReady, StartsWith, Visits}};

use super::ends::RankedSpans;
use super::framed::StackFrame;
use super::pending::{PendingFrame, Stretch, compare_nearness, split};
use span_event::Text;
use span_ledger::NamedSpan;
use std::alloc::{AllocError, Global};

// The times between which all spans lie.
const LEAST_TIME: i64 = -4_611_686_018_427_387_903;

const GREATEST_UNTIL: i64 = 9_223_372_036_854_775_806;

// A frame at a time, the least stack first. Frames become pending when the one that they stand on is visited, so they are no more
// than the spans have stretches.
#[derive(Drop)]
pub(crate) struct Descent<'a> {
    spans: RankedSpans<'a>,
    // The nearest last.
    pending: Vec<PendingFrame<'a>>,
    // Those that stand on the frame that is being visited.
    found: Vec<PendingFrame<'a>>,
    // The stack that was visited last.
    pub stack: Vec<&'a Text>,
}

impl<'a> Descent<'a> {
    pub(crate) fn new(alloc: Global, spans: Vec<NamedSpan<'a>>) -> Result<Descent<'a>, AllocError>
        requires { AreThreadSpans spans.items }
        ensures ready { IfOk result (λ descent. IsReady descent) }
        ensures starts { IfOk result (λ descent. StartsWith spans.entry.items descent) }
    {
        let spans = RankedSpans::new(alloc, spans)?;
        let whole = Stretch {
            from: LEAST_TIME,
            until: GREATEST_UNTIL,
            next: 0,
        };
        let mut pending = Vec::new(alloc);
        split(&spans, 0, &whole, &mut pending)?;
        pending.sort_unstable_by(compare_nearness);
        Ok(Descent {
            spans,
            pending,
            found: Vec::new(alloc),
            stack: Vec::new(alloc),
        })
    }

    // Visits the next frame, whose stack is then the last one visited.
    pub(crate) fn next(&mut self) -> Result<Option<StackFrame<'a>>, AllocError>
        requires { IsReady self.old }
        ensures ready { OnOk result (IsReady self.new) }
        ensures visits { IfOk result (λ frame. Visits self.old self.new frame) }
    {
        let Some(first) = self.pending.last() else {
            return Ok(None);
        };
        let first = *first;
        let time = self.split_next(&first)?;
        self.found.sort_unstable_by(compare_nearness);
        self.pending.append(&mut self.found)?;
        self.stack.truncate(first.below);
        self.stack.push(first.name)?;
        Ok(Some(StackFrame {
            below: first.below,
            name: first.name,
            time,
        }))
    }

    // Splits the pending frames of the stack that comes next, and answers how many ticks have just this stack.
    fn split_next(&mut self, first: &PendingFrame<'a>) -> Result<u64, AllocError>
        requires ready { IsReady self.old }
        requires below { first.now.below ≤ length self.old.stack.items }
        ensures { IfOk result (λ time. IsNextSplit first.now time self.old self.new) }
    {
        let mut time = 0u64;
        while let Some(frame) = self.pop_like(first) {
            time += split(&self.spans, first.below + 1, &frame.over, &mut self.found)?;
        }
        Ok(time)
    }

    // The nearest pending frame, which is taken off, if it has the stack of this one.
    fn pop_like(&mut self, first: &PendingFrame) -> Option<PendingFrame<'a>>
        ensures { IsPopped first.now self.old result self.new }
    {
        let frame = self.pending.last()?;
        if frame.below == first.below && frame.name == first.name {
            self.pending.pop()
        } else {
            None
        }
    }
}
