//! Collects files into one ledger, and accounts for each of them.
ghost use Rattle.std.specs.Prelude.{◌≡◌, ◌+◌, ◌^◌, ◌<◌, ◌≤◌, ◌↔◌, Err, length, IfOk, IfErr};
ghost use Rattle.span_collect.specs.{Collection.{AreNoneOrTooMany, IsClosed, IsRefused, collect_code, calls_told, told_by}, InTurn.AnswersAsInTurn, Seals.SealedAccount};

use crate::files::{FileEnd, Input};
use crate::gate::Gate;
use crate::parts::parts_of;
use crate::queries::Asked;
use crate::sealing::{Sealing, seal_open_spans};
use crate::settings::Settings;
use crate::workers::{enrol_all, run_workers};
use span_event::Fault;
use span_journal::Query;
use span_ledger::Ledger;
use span_names::HashKeys;
use span_read::Reading;
use span_share::Share;
use std::alloc::{AllocError, Global};
use std::random::RandomSource;
use std::sync::Wait;
use std::thread::Threads;
use thiserror::Error;

const MOST_FILES: usize = 64;

/// What was collected.
#[derive(Drop)]
pub struct Outcome {
    pub ledger: Ledger,
    /// One end for each file, in order.
    pub files: Vec<FileEnd>,
    pub asked: Asked,
    /// How far the seals came; none done and no cause where nothing was to be sealed.
    pub sealing: Sealing,
}

/// Why there is no outcome.
#[derive(Debug, Drop, Error)]
pub enum CollectError {
    /// 41: there is no file, or there are more than 64.
    #[error("no file, or more than 64")]
    FileCount,
    /// 31: memory was refused before any worker was started.
    #[error("out of memory")]
    Memory,
    /// 43: the journal has another number of entries than the callers say that they recorded.
    #[error("{entries} entries, but {calls} calls were taken")]
    Unaccounted { entries: u32, calls: u32 },
}

impl CollectError {
    /// 31 for want of memory, 41 for the count of files, 43 for a difference.
    pub fn code(&self) -> u16
        ensures { result ≡ collect_code self.now }
    {
        match self {
            CollectError::FileCount => Fault::FileCount.code(),
            CollectError::Memory => Fault::Memory.code(),
            CollectError::Unaccounted { .. } => Fault::Unaccounted.code(),
        }
    }
}

/// Reads 1 to 64 files in the settings' format, and tells their items to one ledger of the settings' limit and strictness, with one
/// worker for each file, in threads. The queries are asked while the workers run. Waits until all are done; then the open spans are
/// sealed, if the settings want it.
/// Where no two files have a process or a key in common, and none was cut, the answers to each file's items are those that they get
/// where the files are read one after another.
///
/// The refusals come in this order: 41 `FileCount`; 31 `Memory`, before any worker is started; 43 `Unaccounted`, before any seal.
pub fn collect<G: Gate, R: Threads + Wait + RandomSource + Sync>(
    rt: &R,
    alloc: Global,
    files: &[Input],
    asks: &[Query],
    gate: &G,
    settings: &Settings,
) -> Result<Outcome, CollectError>
    ensures accounts { IfOk result (λ outcome. SealedAccount files.now asks.now settings.now
        outcome.files.items outcome.asked outcome.sealing outcome.ledger.journal) }
    ensures limit { IfOk result (λ outcome. outcome.ledger.limit ≡ settings.now.limit) }
    ensures strict { IfOk result (λ outcome. outcome.ledger.strict ≡ settings.now.strict) }
    ensures in_turn { IfOk result (λ outcome. AnswersAsInTurn files.now asks.now settings.now
        outcome.files.items outcome.ledger.journal) }
    ensures count { (result ≡ Err CollectError.FileCount) ↔ AreNoneOrTooMany files.now }
    ensures refused { IfErr result (IsRefused files.now asks.now settings.now) }
{
    if files.is_empty() || files.len() > MOST_FILES {
        return Err(CollectError::FileCount);
    }
    let settings = *settings;
    let Ok(mut outcome) = collect_unsettled(rt, alloc, files, asks, gate, settings) else {
        return Err(CollectError::Memory);
    };
    let entries = outcome.ledger.len();
    let calls = count_calls(&outcome.files, outcome.asked);
    if entries != calls {
        return Err(CollectError::Unaccounted { entries, calls });
    }
    outcome.sealing = seal_open_spans(alloc, settings.seal, &mut outcome.ledger);
    Ok(outcome)
}

// Collects the files, and closes the ledger.
fn collect_unsettled<G: Gate, R: Threads + Wait + RandomSource + Sync>(
    rt: &R,
    alloc: Global,
    files: &[Input],
    asks: &[Query],
    gate: &G,
    settings: Settings,
) -> Result<Outcome, AllocError>
    requires { length files.now ≤ 64 }
    ensures closed { IfOk result (λ outcome.
        IsClosed files.now asks.now settings outcome.files.items outcome.asked outcome.ledger) }
    ensures small { settings.limit < 2 ^ 32 }
{
    let Settings {
        format,
        limit,
        strict,
        alone,
        ..
    } = settings;
    let (share, mut main) = Share::start_with_keys(alloc, limit, strict, HashKeys::random(rt))?;
    let ends = Vec::with_capacity(alloc, files.len())?;
    let seats = enrol_all(rt, alloc, &share, &mut main, files.len())?;
    let parts = if alone { parts_of(rt, files) } else { 1 };
    let reading = Reading { format, parts };
    let (asked, main, files) = run_workers(
        rt, alloc, &share, gate, reading, files, asks, seats, main, ends,
    );
    let (ledger, _) = share.close(rt, main);
    Ok(Outcome {
        ledger,
        files,
        asked,
        sealing: Sealing {
            done: 0,
            cause: None,
        },
    })
}

// How many items and queries the callers say that they recorded.
fn count_calls(ends: &[FileEnd], asked: Asked) -> u32
    requires { calls_told ends.now asked < 2 ^ 32 }
    ensures { result ≡ calls_told ends.now asked }
{
    asked.done + ends.iter().map(told).sum::<u32>()
}

fn told(end: &FileEnd) -> u32
    ensures { result ≡ told_by end.now }
{
    match end {
        FileEnd::Read { items, .. } => *items,
        FileEnd::Stopped { done, .. } => *done,
        FileEnd::Refused { .. } | FileEnd::NotStarted => 0,
    }
}
