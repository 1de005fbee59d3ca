//! A run: files are collected, and their report is written.
ghost use Rattle.std.specs.{List.list_any, Prelude.{◌≡◌, ◌<◌, ◌↔◌, Err, IfOk, IfErr}};
ghost use Rattle.span_collect.specs.{report_of, TakesBytes, Collection.AreNoneOrTooMany, InTurn.{AnswersAsInTurn, FailsAsInTurn, StandsAsInTurn, WritesAsInTurn}, Run.{run_code, is_cut, is_refused, of_journal, status_of, unread_of, IsNotCollected, IsRunOf, RunLeaves, WritesOneFile}, Seals.SealedAccount};

use crate::collection::{CollectError, collect};
use crate::files::{FileEnd, Input};
use crate::gate::FreeGate;
use crate::queries::Asked;
use crate::sealing::Sealing;
use crate::settings::Settings;
use span_event::Fault;
use span_journal::Query;
use span_ledger::Ledger;
use span_report::{Sink, WriteFault, write_report};
use std::alloc::Global;
use std::random::RandomSource;
use std::sync::Wait;
use std::thread::Threads;
use thiserror::Error;

/// How a run ended.
#[derive(Debug, Drop)]
pub struct RunEnd {
    /// 0 where every file was read, 1 where one was refused; 2 where one stopped or was not started, or a query or a seal was not
    /// taken: then nothing was written.
    pub status: u8,
    /// One end for each file, in order.
    pub ends: Vec<FileEnd>,
    pub asked: Asked,
    pub sealing: Sealing,
}

impl RunEnd {
    /// How many files were refused as a whole.
    pub fn unread(&self) -> u64
        ensures { result ≡ unread_of self.now.ends.items }
    {
        count_refused(&self.ends) as u64
    }
}

/// Why there is no run.
#[derive(Debug, Drop, Error)]
pub enum RunError {
    /// 41: there is no file, or there are more than 64.
    #[error("no file, or more than 64")]
    FileCount,
    /// 31: memory was refused, and nothing was written.
    #[error("out of memory")]
    Memory,
    /// 43: the journal has another number of entries than the callers say that they recorded, and nothing was written.
    #[error("{entries} entries, but {calls} calls were taken")]
    Unaccounted { entries: u32, calls: u32 },
    /// 51: the output failed after this many bytes of the report.
    #[error("the output failed after {written} bytes")]
    Output { written: u64 },
}

impl RunError {
    /// 31 for want of memory, 41 for the count of files, 43 for a difference, 51 for the output.
    pub fn code(&self) -> u16
        ensures { result ≡ run_code self.now }
    {
        match self {
            RunError::FileCount => Fault::FileCount.code(),
            RunError::Memory => Fault::Memory.code(),
            RunError::Unaccounted { .. } => Fault::Unaccounted.code(),
            RunError::Output { .. } => Fault::Output.code(),
        }
    }
}

/// A run that ended, and what it collected.
#[derive(Drop)]
pub struct Collected {
    pub end: RunEnd,
    pub ledger: Ledger,
}

/// Collects 1 to 64 files, with one worker for each in threads of their own, seals what stays open if the settings want it, and
/// writes the report of their journal. Where no two files have a process or a key in common it is that of the files read one after
/// another, whatever the order of the workers.
pub fn run<O: Sink, R: Threads + Wait + RandomSource + Sync>(
    rt: &R,
    alloc: Global,
    files: &[Input],
    asks: &[Query],
    settings: &Settings,
    out: &mut O,
) -> Result<RunEnd, RunError>
    ensures run { IfOk result (λ run. IsRunOf (of_journal (report_of settings.now.format.unit)) files.now
        asks.now settings.now run (O.state out.old) (O.state out.new)) }
    ensures one_file { IfOk result (λ run. WritesOneFile (of_journal (report_of settings.now.format.unit))
        files.now asks.now settings.now run.status (O.state out.old) (O.state out.new)) }
    ensures in_turn { IfOk result (λ run. WritesAsInTurn (of_journal (report_of settings.now.format.unit))
        files.now asks.now settings.now run.status (O.state out.old) (O.state out.new)) }
    ensures count { (result ≡ Err RunError.FileCount) ↔ AreNoneOrTooMany files.now }
    ensures error { IfErr result (λ error. RunLeaves (of_journal (report_of settings.now.format.unit))
        error files.now asks.now settings.now (O.state out.old) (O.state out.new)) }
    ensures error_in_turn { IfErr result (λ error.
        FailsAsInTurn (of_journal (report_of settings.now.format.unit)) error files.now asks.now
        settings.now (O.state out.old) (O.state out.new)) }
{
    let collected = run_to_ledger(rt, alloc, files, asks, settings, out)?;
    Ok(collected.end)
}

/// As `run`, and gives what was collected: a program that ends then need not free it, which takes long.
pub fn run_to_ledger<O: Sink, R: Threads + Wait + RandomSource + Sync>(
    rt: &R,
    alloc: Global,
    files: &[Input],
    asks: &[Query],
    settings: &Settings,
    out: &mut O,
) -> Result<Collected, RunError>
    ensures run { IfOk result (λ collected. IsRunOf (of_journal (report_of settings.now.format.unit))
        files.now asks.now settings.now collected.end (O.state out.old) (O.state out.new)) }
    ensures one_file { IfOk result (λ collected.
        WritesOneFile (of_journal (report_of settings.now.format.unit)) files.now asks.now settings.now
        collected.end.status (O.state out.old) (O.state out.new)) }
    ensures in_turn { IfOk result (λ collected.
        WritesAsInTurn (of_journal (report_of settings.now.format.unit)) files.now asks.now settings.now
        collected.end.status (O.state out.old) (O.state out.new)) }
    ensures count { (result ≡ Err RunError.FileCount) ↔ AreNoneOrTooMany files.now }
    ensures error { IfErr result (λ error. RunLeaves (of_journal (report_of settings.now.format.unit))
        error files.now asks.now settings.now (O.state out.old) (O.state out.new)) }
    ensures error_in_turn { IfErr result (λ error.
        FailsAsInTurn (of_journal (report_of settings.now.format.unit)) error files.now asks.now
        settings.now (O.state out.old) (O.state out.new)) }
    ensures account { IfOk result (λ collected.
        SealedAccount files.now asks.now settings.now collected.end.ends.items collected.end.asked
        collected.end.sealing collected.ledger.journal) }
    ensures limit { IfOk result (λ collected. collected.ledger.limit ≡ settings.now.limit) }
    ensures strict { IfOk result (λ collected. collected.ledger.strict ≡ settings.now.strict) }
    ensures report { IfOk result (λ collected. collected.end.status < 2
        → TakesBytes (O.state out.old) (O.state out.new)
        (report_of settings.now.format.unit collected.ledger.journal)) }
{
    let collected = match collect_to_ledger(rt, alloc, files, asks, settings) {
        Ok(collected) => collected,
        Err(error) => return Err(error),
    };
    if collected.end.status == 2 {
        return Ok(collected);
    }
    match write_report(alloc, settings.format.unit, &collected.ledger, out) {
        Ok(()) => Ok(collected),
        Err(WriteFault::Memory) => Err(RunError::Memory),
        Err(WriteFault::Output { written }) => Err(RunError::Output { written }),
    }
}

/// Collects as `run` does, and writes nothing: for a caller that prints another text than the report, where the status is below 2.
pub fn collect_to_ledger<R: Threads + Wait + RandomSource + Sync>(
    rt: &R,
    alloc: Global,
    files: &[Input],
    asks: &[Query],
    settings: &Settings,
) -> Result<Collected, RunError>
    ensures account { IfOk result (λ collected.
        SealedAccount files.now asks.now settings.now collected.end.ends.items collected.end.asked
        collected.end.sealing collected.ledger.journal) }
    ensures status { IfOk result
        (λ collected. collected.end.status
        ≡ status_of collected.end.ends.items collected.end.asked collected.end.sealing) }
    ensures limit { IfOk result (λ collected. collected.ledger.limit ≡ settings.now.limit) }
    ensures strict { IfOk result (λ collected. collected.ledger.strict ≡ settings.now.strict) }
    ensures answers { IfOk result (λ collected. AnswersAsInTurn files.now asks.now settings.now
        collected.end.ends.items collected.ledger.journal) }
    ensures in_turn { IfOk result (λ collected. StandsAsInTurn files.now asks.now settings.now
        collected.end.status collected.ledger.journal) }
    ensures count { (result ≡ Err RunError.FileCount) ↔ AreNoneOrTooMany files.now }
    ensures error { IfErr result (λ error. IsNotCollected error files.now asks.now settings.now) }
{
    // Errors and what was collected have types of their own in a run, so that who collects meets none that only an output gives.
    let outcome = match collect(rt, alloc, files, asks, &FreeGate, settings) {
        Ok(outcome) => outcome,
        Err(CollectError::FileCount) => return Err(RunError::FileCount),
        Err(CollectError::Memory) => return Err(RunError::Memory),
        Err(CollectError::Unaccounted { entries, calls }) => {
            return Err(RunError::Unaccounted { entries, calls });
        }
    };
    let status = exit_status(&outcome.files, outcome.asked, outcome.sealing);
    Ok(Collected {
        end: RunEnd {
            status,
            ends: outcome.files,
            asked: outcome.asked,
            sealing: outcome.sealing,
        },
        ledger: outcome.ledger,
    })
}

fn exit_status(ends: &[FileEnd], asked: Asked, sealing: Sealing) -> u8
    ensures { result ≡ status_of ends.now asked sealing }
{
    if any_cut(ends) || asked.cause.is_some() || sealing.cause.is_some() {
        2
    } else if any_refused(ends) {
        1
    } else {
        0
    }
}

fn any_cut(ends: &[FileEnd]) -> bool
    ensures { result ≡ list_any is_cut ends.now }
{
    ends.iter().any(|end| matches!(end, FileEnd::Stopped { .. } | FileEnd::NotStarted))
}

fn any_refused(ends: &[FileEnd]) -> bool
    ensures { result ≡ list_any is_refused ends.now }
{
    ends.iter().any(|end| end.is_refused())
}

fn count_refused(ends: &[FileEnd]) -> usize
    ensures { result ≡ unread_of ends.now }
{
    ends.iter().filter(|end| end.is_refused()).count()
}
