//! The stacks of a run, thread by thread.
ghost use Rattle.std.specs.Prelude.{◌≡◌, [], map, Err, OnOk};
ghost use Rattle.span_stack_sums.specs.{TooLarge, folded_after, folded_if, thread_of_row, Kept.{Exceeds, TakesSums}, Stacks.{journal_sums, keyed_stack, thread_sums}};

use crate::owner::Owner;
use crate::stack_rows::StackRows;
use crate::text::MOST_LABELS;
use span_event::{Text, Thread};
use span_journal::ThreadRow;
use span_ledger::Ledger;
use span_report::stacks::{LabelledSpans, SpanColumn, StackFrame, StacksFault, framed_stacks};
use std::alloc::Global;

/// Adds the stacks of all threads, unless they have too many labels then.
pub(crate) fn add_threads(
    alloc: Global,
    rows: &mut StackRows,
    ledger: &Ledger,
    columns: &[SpanColumn],
) -> Result<(), StacksFault>
    ensures rows { OnOk result
        (TakesSums rows.old rows.new (journal_sums columns.now ledger.now.journal)) }
    ensures full { result ≡ Err TooLarge
        → Exceeds rows.old (journal_sums columns.now ledger.now.journal) }
{
    let threads = ledger.threads(alloc)?;
    for row in &threads {
        add_thread(alloc, rows, ledger, thread_of(row), columns)?;
    }
    Ok(())
}

fn thread_of(row: &ThreadRow) -> Thread
    ensures { result ≡ thread_of_row row.now }
{
    Thread {
        pid: row.pid,
        tid: row.tid,
    }
}

fn add_thread(
    alloc: Global,
    rows: &mut StackRows,
    ledger: &Ledger,
    thread: Thread,
    columns: &[SpanColumn],
) -> Result<(), StacksFault>
    ensures rows { OnOk result
        (TakesSums rows.old rows.new (thread_sums columns.now ledger.now.journal thread)) }
    ensures full { result ≡ Err TooLarge
        → Exceeds rows.old (thread_sums columns.now ledger.now.journal thread) }
{
    let spans = LabelledSpans::of_thread(alloc, ledger, thread, columns)?;
    // Each frame stands in a stack, so more frames have more labels.
    let frames = framed_stacks(alloc, &spans, MOST_LABELS as u32)?;
    let owner = Owner::of(alloc, ledger, thread)?;
    add_frames(alloc, rows, &owner, &frames)
}

// Adds those stacks of the frames that a tick has.
fn add_frames(
    alloc: Global,
    rows: &mut StackRows,
    owner: &Owner,
    frames: &[StackFrame],
) -> Result<(), StacksFault>
    ensures rows { OnOk result (TakesSums rows.old rows.new
        (map (keyed_stack owner.now.process owner.now.thread) (folded_after [] frames.now))) }
    ensures full { result ≡ Err TooLarge → Exceeds rows.old
        (map (keyed_stack owner.now.process owner.now.thread) (folded_after [] frames.now)) }
{
    let mut stack = Vec::new(alloc);
    for frame in frames {
        frame.follow(&mut stack)?;
        add_stack(alloc, rows, owner, &stack, frame.time)?;
    }
    Ok(())
}

// Adds the ticks of a stack, if it has any.
fn add_stack(
    alloc: Global,
    rows: &mut StackRows,
    owner: &Owner,
    stack: &[&Text],
    time: u64,
) -> Result<(), StacksFault>
    ensures rows { OnOk result (TakesSums rows.old rows.new
        (map (keyed_stack owner.now.process owner.now.thread) (folded_if (map (λ label. label.now) stack.now) time))) }
    ensures full { result ≡ Err TooLarge → Exceeds rows.old
        (map (keyed_stack owner.now.process owner.now.thread) (folded_if (map (λ label. label.now) stack.now) time)) }
{
    if time == 0 {
        return Ok(());
    }
    rows.put(owner.key_of(alloc, stack)?, time)?;
    if rows.are_full() {
        return Err(StacksFault::TooLarge);
    }
    Ok(())
}
