//! Prints what a ledger holds.

use crate::lines::Fault;
use span_ledger::{Ledger, ProcessRows, ThreadRows};
use std::fmt::Debug;
use std::io;

fn show_each<R: Debug>(rt: &impl Print, rows: &[R]) -> io::Result<()> {
    for row in rows {
        println!(rt; "{row:?}")?;
    }
    Ok(())
}

/// The rows of each kind, and the counts.
pub(crate) fn show_rows(rt: &HostRuntime, ledger: &Ledger) -> Result<(), Fault> {
    let alloc = rt.alloc();
    show_each(rt, &ledger.processes(alloc)?)?;
    show_each(rt, &ledger.threads(alloc)?)?;
    show_each(rt, &ledger.span_rows(alloc)?)?;
    show_each(rt, &ledger.instant_rows(alloc)?)?;
    show_each(rt, &ledger.series_rows(alloc)?)?;
    show_each(rt, &ledger.async_rows(alloc)?)?;
    show_each(rt, &ledger.flow_rows(alloc)?)?;
    let counts = ledger.counts();
    Ok(println!(rt; "{counts:?}")?)
}

fn show_thread_rows(rt: &impl Print, thread: &ThreadRows) -> io::Result<()> {
    println!(rt; "{:?}", thread.row)?;
    show_each(rt, &thread.spans)?;
    show_each(rt, &thread.instants)
}

fn show_process_rows(rt: &impl Print, process: &ProcessRows) -> io::Result<()> {
    println!(rt; "{:?}", process.row)?;
    for thread in &process.threads {
        show_thread_rows(rt, thread)?;
    }
    show_each(rt, &process.series)
}

/// The rows of each process, with those of its threads.
pub(crate) fn show_rows_by_process(rt: &HostRuntime, ledger: &Ledger) -> Result<(), Fault> {
    for process in &ledger.rows_by_process(rt.alloc())? {
        show_process_rows(rt, process)?;
    }
    Ok(())
}

/// The journal: how many entries it has and may have, and each entry.
pub(crate) fn show_entries(rt: &impl Print, ledger: &Ledger) -> Result<(), Fault> {
    println!(rt; "{} entries of {}", ledger.len(), ledger.limit())?;
    for position in 0..ledger.len() {
        if let Some(entry) = ledger.entry(position) {
            println!(rt; "{entry:?}")?;
        }
    }
    Ok(())
}

/// The names of a thread and of its process, its latest time, and its closed spans: with their places, and then with their self times.
pub(crate) fn show_thread(
    rt: &HostRuntime,
    ledger: &Ledger,
    pid: i64,
    tid: i64,
) -> Result<(), Fault> {
    let (process, thread) = (ledger.process_name(pid), ledger.thread_name(pid, tid));
    println!(rt;
        "process {process:?} thread {thread:?} latest {:?}",
        ledger.latest(pid, tid)
    )?;
    for named in &ledger.closed_spans(rt.alloc(), pid, tid)? {
        println!(rt; "{:?} {:?}", named.name, named.span)?;
    }
    for timed in &ledger.timed_spans(rt.alloc(), pid, tid)? {
        let (name, span) = (timed.name, timed.span);
        println!(rt;
            "{name:?} {} to {} self time {}",
            span.start, span.until, timed.self_time
        )?;
    }
    Ok(())
}
