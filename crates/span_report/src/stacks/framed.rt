//! The stacks of a thread, frame by frame.
ghost use Rattle.std.specs.Prelude.{◌≡◌, ◌<◌, ◌≤◌, [], length, map, Err, IfOk, OnErr, OnOk};
ghost use Rattle.span_report.specs.{AreThreadSpans, Stacks.{Bounds.frame_count, Framed.{AreAscending, folded_after, stack_after}, Ticks.folded_stacks}};

use super::descent::Descent;
use super::fault::StacksFault;
use super::labelled::LabelledSpans;
use span_event::Text;
use span_ledger::NamedSpan;
use std::alloc::{AllocError, Global};
use std::marker::Model;

/// The last frame of a stack, how many other frames are below it, and for how many ticks a thread has just this stack. The
/// others are those with which the stack before it begins, so a list of frames gives many stacks without any frame twice.
#[derive(Drop)]
pub struct StackFrame<'a> {
    pub below: usize,
    pub name: &'a Text,
    pub time: u64,
}

impl<'a> Model for StackFrame<'a> {
    ghost use Rattle.span_report.specs.Stacks.Framed.{Framed};

    ghost Value = { Framed };

    ghost view = { λ f. record { below = f.below; name = f.name.now; time = f.time } };
}

impl<'a> StackFrame<'a> {
    /// Makes of the stack before this one the stack of this frame.
    pub fn follow(&self, stack: &mut Vec<&'a Text>) -> Result<(), AllocError>
        ensures ok { OnOk result (map (λ name. name.now) stack.new.items
            ≡ stack_after (map (λ name. name.now) stack.old.items) self.now) }
        ensures err { OnErr result (stack.new.items ≡ stack.old.items) }
    {
        stack.reserve(1)?;
        stack.truncate(self.below);
        stack.push_reserved(self.name);
        Ok(())
    }
}

/// The folded stacks of a thread's spans, frame by frame, in the order of their lists of labels. A stack that has no tick of
/// its own has a frame too, if others begin with it. If there are more frames than `most`, none is given, and there were never
/// more in memory.
pub fn framed_stacks<'a>(
    alloc: Global,
    spans: &'a LabelledSpans,
    most: u32,
) -> Result<Vec<StackFrame<'a>>, StacksFault>
    ensures stacks { IfOk result (λ frames. folded_after [] frames.items
        ≡ folded_stacks spans.now) }
    ensures ascending { IfOk result (λ frames. AreAscending [] frames.items) }
    ensures count { IfOk result (λ frames. length frames.items ≡ frame_count spans.now) }
    ensures fits { IfOk result (λ frames. length frames.items ≤ most) }
    ensures full { result ≡ Err StacksFault.TooLarge → most < frame_count spans.now }
{
    frames_of(alloc, spans.spans(alloc)?, most)
}

// Each stack of the spans once, in order.
fn frames_of<'a>(
    alloc: Global,
    spans: Vec<NamedSpan<'a>>,
    most: u32,
) -> Result<Vec<StackFrame<'a>>, StacksFault>
    requires { AreThreadSpans spans.items }
    ensures stacks { IfOk result
        (λ frames. folded_after [] frames.items ≡ folded_stacks spans.entry.items) }
    ensures ascending { IfOk result (λ frames. AreAscending [] frames.items) }
    ensures count { IfOk result (λ frames. length frames.items ≡ frame_count spans.entry.items) }
    ensures fits { IfOk result (λ frames. length frames.items ≤ most) }
    ensures full { result ≡ Err StacksFault.TooLarge → most < frame_count spans.entry.items }
{
    let mut descent = Descent::new(alloc, spans)?;
    let mut frames = Vec::new(alloc);
    while let Some(frame) = descent.next()? {
        if frames.len() >= most as usize {
            return Err(StacksFault::TooLarge);
        }
        frames.push(frame)?;
    }
    Ok(frames)
}
