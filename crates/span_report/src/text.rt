//! The text of a report: one walk over the processes of a ledger, their threads, and what each has.
ghost use Rattle.std.specs.Prelude.{◌≡◌, ◌++◌, string_bytes, flat_map, OnOk, IfOk};
ghost use Rattle.span_report.specs.{async_rows, flow_rows, rows_by_process, Lines.{async_line, flow_line}, Report.{head_lines, process_lines, report_of, thread_lines}};

use crate::counts::{EntryCounts, head};
use crate::lines::Printed;
use span_event::Unit;
use span_ledger::{Ledger, ProcessRows, ThreadRows};
use std::alloc::{AllocError, Global};

/// The text of the report of the ledger's journal, whose times are in this unit.
pub fn report(alloc: Global, unit: Unit, ledger: &Ledger) -> Result<Vec<u8>, AllocError>
    ensures { IfOk result (λ text. text.items ≡ report_of unit ledger.now.journal) }
{
    let mut out = head(alloc, unit, &EntryCounts::of(ledger.counts()))?;
    put_processes(alloc, ledger, &mut out)?;
    put_keys(alloc, ledger, &mut out)?;
    Ok(out.into_bytes())
}

// Appends the lines of each process, whose rows are dropped before those of the next are made.
fn put_processes(alloc: Global, ledger: &Ledger, out: &mut String) -> Result<(), AllocError>
    ensures { OnOk result (string_bytes out.new
        ≡ string_bytes out.old ++ flat_map process_lines (rows_by_process ledger.now.journal)) }
{
    for process in ledger.listed_processes(alloc)? {
        ledger.rows_of(alloc, process)?.put(alloc, out)?;
    }
    Ok(())
}

// Appends the lines of asynchronous keys and of flow keys.
fn put_keys(alloc: Global, ledger: &Ledger, out: &mut String) -> Result<(), AllocError>
    ensures { OnOk result (string_bytes out.new
        ≡ string_bytes out.old ++ (flat_map async_line (async_rows ledger.now.journal)
        ++ flat_map flow_line (flow_rows ledger.now.journal))) }
{
    put_each(alloc, out, &ledger.async_rows(alloc)?)?;
    put_each(alloc, out, &ledger.flow_rows(alloc)?)
}

/// As `report`, for texts that hold it and need the ledger's rows by process too, which take the most time and memory.
pub fn report_text(
    alloc: Global,
    unit: Unit,
    ledger: &Ledger,
    processes: &[ProcessRows],
) -> Result<String, AllocError>
    requires { processes.now ≡ rows_by_process ledger.now.journal }
    ensures { IfOk result (λ text. string_bytes text ≡ report_of unit ledger.now.journal) }
{
    let mut out = head(alloc, unit, &EntryCounts::of(ledger.counts()))?;
    put_each(alloc, &mut out, processes)?;
    put_keys(alloc, ledger, &mut out)?;
    Ok(out)
}

impl Printed for ProcessRows {
    ghost lines = { process_lines };

    fn put(&self, alloc: Global, out: &mut String) -> Result<(), AllocError> {
        self.row.put(alloc, out)?;
        put_each(alloc, out, &self.threads)?;
        put_each(alloc, out, &self.series)
    }
}

impl Printed for ThreadRows {
    ghost lines = { thread_lines };

    fn put(&self, alloc: Global, out: &mut String) -> Result<(), AllocError> {
        self.row.put(alloc, out)?;
        put_each(alloc, out, &self.spans)?;
        put_each(alloc, out, &self.instants)
    }
}

// Appends the lines of each, in order.
fn put_each<P: Printed>(alloc: Global, out: &mut String, printed: &[P]) -> Result<(), AllocError>
    ensures { OnOk result (string_bytes out.new
        ≡ string_bytes out.old ++ flat_map P.lines printed.now) }
{
    for rows in printed {
        rows.put(alloc, out)?;
    }
    Ok(())
}
