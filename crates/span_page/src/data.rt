//! The data of a page.
ghost use Rattle.std.specs.{List.join_with_byte, Prelude.{◌≡◌, ◌++◌, codes, length, map, string_bytes, IfErr, IfOk, OnOk}};
ghost use Rattle.span_page.specs.{rows_by_process, json_text_of, report_of, Bounds.IsFaultOf, Data.{all_stacks_json, data_of, graph_json, graphs_json, left_after, left_behind, names_json, rest_of, threads_in, threads_of}, Safe.safe};

use crate::fault::PageFault;
use crate::safe::put_safe;
use crate::stacks::{put_names, put_stacks};
use serde_json::Value;
use span_collect::refusals::refusals_text;
use span_collect::{FileEnd, Input, fault_lines};
use span_event::{Text, Thread, Unit};
use span_ledger::{Ledger, ProcessRows};
use span_report::report_text;
use span_report::stacks::{LabelledSpans, SpanColumn, StacksFault, framed_stacks};
use std::alloc::{AllocError, Global};

// How many frames the graphs of a page may have in all.
pub(crate) const MOST_FRAMES: u32 = 4_194_304;

// Appends the report, the table and the rest, with escapes.
pub(crate) fn put_data(
    alloc: Global,
    unit: Unit,
    out: &mut Vec<u8>,
    ledger: &Ledger,
    files: &[Input],
    ends: &[FileEnd],
    labels: &[SpanColumn],
    table: String,
) -> Result<(), PageFault>
    requires { length files.now ≡ length ends.now }
    ensures text { OnOk result (out.new.items ≡ out.old.items ++ safe
        (data_of unit labels.now (string_bytes table) files.now ends.now ledger.now.journal)) }
    ensures full { IfErr result (IsFaultOf (out.old.items ++ safe
        (data_of unit labels.now (string_bytes table) files.now ends.now ledger.now.journal))) }
{
    let threads = put_report(alloc, unit, out, ledger)?;
    out.extend_from_slice(b",\"table\":")?;
    put_safe_string(alloc, out, table)?;
    put_rest(
        alloc,
        unit,
        out,
        ledger,
        files,
        ends,
        labels,
        &threads,
        MOST_FRAMES,
    )?;
    Ok(())
}

// Begins the data of a run with its report, with escapes, and answers its threads in the report's order.
pub(crate) fn put_report(
    alloc: Global,
    unit: Unit,
    out: &mut Vec<u8>,
    ledger: &Ledger,
) -> Result<Vec<Thread>, PageFault>
    ensures text { OnOk result (out.new.items ≡ out.old.items
        ++ (codes "{\"report\":" ++ safe (json_text_of (report_of unit ledger.now.journal)))) }
    ensures full { IfErr result (IsFaultOf (out.old.items
        ++ (codes "{\"report\":" ++ safe (json_text_of (report_of unit ledger.now.journal))))) }
    ensures threads { IfOk result (λ threads. threads.items
        ≡ threads_of (rows_by_process ledger.now.journal)) }
{
    let (report, threads) = report_and_threads(alloc, unit, ledger)?;
    out.extend_from_slice(b"{\"report\":")?;
    put_safe_string(alloc, out, report)?;
    Ok(threads)
}

// Appends what a page has of a run beside its report, with escapes, and ends the data. Answers how many frames are left behind its graphs.
pub(crate) fn put_rest(
    alloc: Global,
    unit: Unit,
    out: &mut Vec<u8>,
    ledger: &Ledger,
    files: &[Input],
    ends: &[FileEnd],
    labels: &[SpanColumn],
    threads: &[Thread],
    left: u32,
) -> Result<u32, PageFault>
    requires ends { length files.now ≡ length ends.now }
    requires threads { threads.now ≡ threads_of (rows_by_process ledger.now.journal) }
    ensures text { OnOk result (out.new.items ≡ out.old.items
        ++ safe (rest_of unit left labels.now files.now ends.now ledger.now.journal)) }
    ensures full { IfErr result (IsFaultOf (out.old.items
        ++ safe (rest_of unit left labels.now files.now ends.now ledger.now.journal))) }
    ensures left { IfOk result (λ rest.
        rest ≡ left_behind labels.now ledger.now.journal left threads.now) }
{
    out.extend_from_slice(b",\"refused\":")?;
    put_safe_string(alloc, out, refusals_text(alloc, unit, ledger, files, ends)?)?;
    out.extend_from_slice(b",\"files\":")?;
    put_safe(out, names_text(alloc, files)?.as_bytes())?;
    out.extend_from_slice(b",\"faults\":")?;
    put_safe_string(alloc, out, fault_lines(alloc, files, ends)?)?;
    out.extend_from_slice(b",\"stacks\":")?;
    let (stacks, rest) = stacks_text(alloc, ledger, labels, threads, left)?;
    put_safe(out, stacks.as_bytes())?;
    out.extend_from_slice(b"}")?;
    Ok(rest)
}

// The names of files, as a JSON text.
fn names_text(alloc: Global, files: &[Input]) -> Result<String, AllocError>
    ensures { IfOk result (λ text. string_bytes text ≡ names_json files.now) }
{
    let names = names_of(alloc, files)?;
    let mut out = String::from_str(alloc, "[")?;
    put_names(alloc, &mut out, &names)?;
    out.push(']')?;
    Ok(out)
}

fn names_of(alloc: Global, files: &[Input]) -> Result<Vec<&Text>, AllocError>
    ensures { IfOk result (λ names.
        map (λ name. name.now) names.items ≡ map (λ (file : Input). file.name) files.now) }
{
    let mut names = Vec::new(alloc);
    for file in files {
        names.push(&file.name)?;
    }
    Ok(names)
}

// The report, and its threads in its order.
fn report_and_threads(
    alloc: Global,
    unit: Unit,
    ledger: &Ledger,
) -> Result<(String, Vec<Thread>), AllocError>
    ensures report { IfOk result (λ both. string_bytes both.0 ≡ report_of unit ledger.now.journal) }
    ensures threads { IfOk result (λ both. both.1.items
        ≡ threads_of (rows_by_process ledger.now.journal)) }
{
    let processes = ledger.rows_by_process(alloc)?;
    let report = report_text(alloc, unit, ledger, &processes)?;
    let threads = threads_of(alloc, &processes)?;
    Ok((report, threads))
}

// Appends a text as a JSON text with escapes.
pub(crate) fn put_safe_string(
    alloc: Global,
    out: &mut Vec<u8>,
    text: String,
) -> Result<(), PageFault>
    ensures text { OnOk result (out.new.items
        ≡ out.old.items ++ safe (json_text_of (string_bytes text))) }
    ensures full { IfErr result
        (IsFaultOf (out.old.items ++ safe (json_text_of (string_bytes text)))) }
{
    let json = string_json(alloc, text)?;
    put_safe(out, json.as_bytes())
}

// The text as a JSON text. It takes the text, so that a large one is gone before the page grows by it.
#[tactic(auto, unfolding(span_report::specs::Lines::json_text_of))]
fn string_json(alloc: Global, text: String) -> Result<String, AllocError>
    ensures { IfOk result (λ json. string_bytes json ≡ json_text_of (string_bytes text)) }
{
    Value::String(text).to_string(alloc)
}

// The stacks of each thread, and how many frames are left behind their graphs.
#[tactic(auto, unfolding(crate::specs::Data::all_stacks_json), using(std::proofs::Common::append_assoc))]
fn stacks_text(
    alloc: Global,
    ledger: &Ledger,
    labels: &[SpanColumn],
    threads: &[Thread],
    left: u32,
) -> Result<(String, u32), PageFault>
    requires { threads.now ≡ threads_of (rows_by_process ledger.now.journal) }
    ensures text { IfOk result (λ both. string_bytes both.0
        ≡ all_stacks_json left labels.now ledger.now.journal) }
    ensures full { IfErr result
        (IsFaultOf (all_stacks_json left labels.now ledger.now.journal)) }
    ensures left { IfOk result (λ both. both.1
        ≡ left_behind labels.now ledger.now.journal left threads.now) }
{
    let mut out = String::from_str(alloc, "[")?;
    let rest = put_threads(alloc, &mut out, ledger, labels, threads, left)?;
    out.push(']')?;
    Ok((out, rest))
}

// The threads of the report, in its order.
fn threads_of(alloc: Global, processes: &[ProcessRows]) -> Result<Vec<Thread>, AllocError>
    ensures { IfOk result (λ threads. threads.items ≡ threads_of processes.now) }
{
    let mut threads = Vec::new(alloc);
    for process in processes {
        put_threads_in(&mut threads, process)?;
    }
    Ok(threads)
}

fn put_threads_in(threads: &mut Vec<Thread>, process: &ProcessRows) -> Result<(), AllocError>
    ensures { OnOk result (threads.new.items ≡ threads.old.items ++ threads_in process.now) }
{
    for thread in &process.threads {
        threads.push(Thread {
            pid: thread.row.pid,
            tid: thread.row.tid,
        })?;
    }
    Ok(())
}

// Appends the graph of each thread, separated by commas, as long as there are frames left for it. Answers how many are left behind them.
fn put_threads(
    alloc: Global,
    out: &mut String,
    ledger: &Ledger,
    labels: &[SpanColumn],
    threads: &[Thread],
    left: u32,
) -> Result<u32, PageFault>
    ensures json { OnOk result (string_bytes out.new ≡ string_bytes out.old
        ++ join_with_byte 44 (graphs_json labels.now ledger.now.journal left threads.now)) }
    ensures full { IfErr result (IsFaultOf (string_bytes out.old
        ++ join_with_byte 44 (graphs_json labels.now ledger.now.journal left threads.now))) }
    ensures left { IfOk result (λ rest.
        rest ≡ left_behind labels.now ledger.now.journal left threads.now) }
{
    let Some((first, later)) = threads.split_first() else {
        return Ok(left);
    };
    let mut rest = put_thread(alloc, out, ledger, labels, first, left)?;
    for thread in later {
        out.push(',')?;
        rest = put_thread(alloc, out, ledger, labels, thread, rest)?;
    }
    Ok(rest)
}

// Appends the stacks of a thread, or `null` where its graph has more frames than are left. Answers how many are left behind it.
fn put_thread(
    alloc: Global,
    out: &mut String,
    ledger: &Ledger,
    labels: &[SpanColumn],
    thread: &Thread,
    left: u32,
) -> Result<u32, PageFault>
    ensures json { OnOk result (string_bytes out.new
        ≡ string_bytes out.old ++ graph_json labels.now ledger.now.journal left thread.now) }
    ensures full { IfErr result (IsFaultOf
        (string_bytes out.old ++ graph_json labels.now ledger.now.journal left thread.now)) }
    ensures left { IfOk result (λ rest.
        rest ≡ left_after labels.now ledger.now.journal left thread.now) }
{
    let spans = LabelledSpans::of_thread(alloc, ledger, *thread, labels)?;
    match framed_stacks(alloc, &spans, left) {
        Ok(frames) => {
            put_stacks(alloc, out, &frames)?;
            Ok(left - frames.len() as u32)
        }
        Err(StacksFault::TooLarge) => {
            out.push_str("null")?;
            Ok(left)
        }
        Err(StacksFault::Memory) => Err(PageFault::Memory),
    }
}
