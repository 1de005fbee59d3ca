//! The text of folded stacks.
ghost use Rattle.std.specs.Prelude.{◌≡◌, ◌++◌, ◌+◌, ◌<◌, ◌≤◌, [], ◌∷◌, flat_map, map, decimal, Err, IfOk, OnOk};
ghost use Rattle.span_report.specs.{AreThreadSpans, Stacks.{Bounds.{most_names, names_in}, Folded.{folded_of, names_of, process_lines, process_names, stack_frames, stack_line, stack_lines, thread_frames, thread_lines, thread_names}, Framed.folded_if, Ticks.folded_stacks}};

use super::descent::Descent;
use super::fault::StacksFault;
use super::frames::{put_frame, put_owner};
use super::label::SpanColumn;
use super::labelled::LabelledSpans;
use span_event::{Text, Thread};
use span_journal::{ProcessRow, ThreadRow};
use span_ledger::{Ledger, NamedSpan, ProcessRows, ThreadRows};
use std::alloc::{AllocError, Global};

// How many names the folded stacks of a ledger may have, each stack as many as it is deep.
const MOST_NAMES: u32 = 67_108_864;

/// The folded stacks of the ledger's journal: for each thread, in the order of a report, a line for each stack that it has for a
/// tick or more. It says the process and the thread, the labels of the spans that cover the tick, in ascending rank
/// and separated by `;`, and then for how many ticks. A label is what a span has in the columns. Labels count as names, the
/// process and the thread don't.
pub fn folded(
    alloc: Global,
    ledger: &Ledger,
    columns: &[SpanColumn],
) -> Result<Vec<u8>, StacksFault>
    ensures text { IfOk result (λ text. text.items ≡ folded_of columns.now ledger.now.journal) }
    ensures fits { OnOk result (names_of columns.now ledger.now.journal ≤ most_names) }
    ensures full { result ≡ Err StacksFault.TooLarge
        → most_names < names_of columns.now ledger.now.journal }
{
    let mut out = Vec::new(alloc);
    let mut left = MOST_NAMES;
    // The rows are those of a report, so that both have the threads in one order; they serve nothing else here.
    for process in &ledger.rows_by_process(alloc)? {
        put_process(alloc, ledger, columns, &mut out, &mut left, process)?;
    }
    Ok(out)
}

// Appends the lines of a process, whose names are taken from those that are left.
fn put_process(
    alloc: Global,
    ledger: &Ledger,
    columns: &[SpanColumn],
    out: &mut Vec<u8>,
    left: &mut u32,
    process: &ProcessRows,
) -> Result<(), StacksFault>
    ensures text { OnOk result (out.new.items
        ≡ out.old.items ++ process_lines columns.now ledger.now.journal process.now) }
    ensures fits { OnOk result
        (left.new + process_names columns.now ledger.now.journal process.now ≡ left.old) }
    ensures full { result ≡ Err StacksFault.TooLarge
        → left.old < process_names columns.now ledger.now.journal process.now }
{
    for thread in &process.threads {
        put_thread(alloc, ledger, columns, out, left, &process.row, thread)?;
    }
    Ok(())
}

fn put_thread(
    alloc: Global,
    ledger: &Ledger,
    columns: &[SpanColumn],
    out: &mut Vec<u8>,
    left: &mut u32,
    process: &ProcessRow,
    rows: &ThreadRows,
) -> Result<(), StacksFault>
    ensures text { OnOk result (out.new.items
        ≡ out.old.items ++ thread_lines columns.now ledger.now.journal process.now rows.now) }
    ensures fits { OnOk result
        (left.new + thread_names columns.now ledger.now.journal rows.now ≡ left.old) }
    ensures full { result ≡ Err StacksFault.TooLarge
        → left.old < thread_names columns.now ledger.now.journal rows.now }
{
    let row = &rows.row;
    let start = thread_frames(alloc, process, row)?;
    let thread = Thread {
        pid: row.pid,
        tid: row.tid,
    };
    let labelled = LabelledSpans::of_thread(alloc, ledger, thread, columns)?;
    put_stacks(alloc, out, left, &start, labelled.spans(alloc)?)
}

// Appends a line for each stack of the spans, in order. Only the text has each stack whole.
fn put_stacks(
    alloc: Global,
    out: &mut Vec<u8>,
    left: &mut u32,
    start: &[u8],
    spans: Vec<NamedSpan>,
) -> Result<(), StacksFault>
    requires { AreThreadSpans spans.items }
    ensures text { OnOk result (out.new.items
        ≡ out.old.items ++ stack_lines start.now (folded_stacks spans.entry.items)) }
    ensures fits { OnOk result (left.new + names_in (folded_stacks spans.entry.items) ≡ left.old) }
    ensures full { result ≡ Err StacksFault.TooLarge
        → left.old < names_in (folded_stacks spans.entry.items) }
{
    let mut descent = Descent::new(alloc, spans)?;
    while let Some(frame) = descent.next()? {
        put_timed(alloc, out, left, start, &descent.stack, frame.time)?;
    }
    Ok(())
}

// The line of a stack, if it has any time.
fn put_timed(
    alloc: Global,
    out: &mut Vec<u8>,
    left: &mut u32,
    start: &[u8],
    stack: &[&Text],
    time: u64,
) -> Result<(), StacksFault>
    ensures text { OnOk result (out.new.items ≡ out.old.items
        ++ stack_lines start.now (folded_if (map (λ name. name.now) stack.now) time)) }
    ensures fits { OnOk result
        (left.new + names_in (folded_if (map (λ name. name.now) stack.now) time) ≡ left.old) }
    ensures full { result ≡ Err StacksFault.TooLarge
        → left.old < names_in (folded_if (map (λ name. name.now) stack.now) time) }
{
    if time == 0 {
        return Ok(());
    }
    if stack.len() > *left as usize {
        return Err(StacksFault::TooLarge);
    }
    *left -= stack.len() as u32;
    put_line(alloc, out, start, stack, time)?;
    Ok(())
}

// The process and the thread, with which each line of the thread starts.
fn thread_frames(
    alloc: Global,
    process: &ProcessRow,
    thread: &ThreadRow,
) -> Result<Vec<u8>, AllocError>
    ensures { IfOk result (λ start. start.items ≡ thread_frames process.now thread.now) }
{
    let mut start = Vec::new(alloc);
    put_owner(alloc, &mut start, process.pid, &process.name)?;
    start.push(b';')?;
    put_owner(alloc, &mut start, thread.tid, &thread.name)?;
    Ok(start)
}

fn put_line(
    alloc: Global,
    out: &mut Vec<u8>,
    start: &[u8],
    stack: &[&Text],
    time: u64,
) -> Result<(), AllocError>
    ensures { OnOk result (out.new.items ≡ out.old.items ++ stack_line start.now
        (record { stack = map (λ name. name.now) stack.now; time = time })) }
{
    out.extend_from_slice(start)?;
    put_stack(out, stack)?;
    out.extend_from_slice(format!(in alloc; " {time}\n")?.as_bytes())
}

fn put_stack(out: &mut Vec<u8>, stack: &[&Text]) -> Result<(), AllocError>
    ensures { OnOk result (out.new.items
        ≡ out.old.items ++ stack_frames (map (λ name. name.now) stack.now)) }
{
    for name in stack {
        out.push(b';')?;
        put_frame(out, name)?;
    }
    Ok(())
}
