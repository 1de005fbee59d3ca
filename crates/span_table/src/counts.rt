//! What a table counts beside its spans.
ghost use Rattle.std.specs.Prelude.{◌≡◌, ◌∷◌, [], IfOk};
ghost use Rattle.span_table.specs.{Counts.{counts_fit, entry_counts_fit}, Tables.{counts_of, counts_together, entry_counts_together}};

use crate::run::LedgerRun;
use crate::wide::{is_narrow, plus};
use span_report::EntryCounts;
use std::alloc::AllocError;

/// What a table counts beside its spans, over its runs.
#[derive(Clone, Copy, Debug, PartialEq, Eq)]
pub struct TableCounts {
    pub runs: u128,
    pub files: u128,
    /// Files that were refused as a whole.
    pub unread: u128,
    pub entries: EntryCounts,
}

impl TableCounts {
    /// The counts of no runs.
    pub fn of_none() -> TableCounts
        ensures { result ≡ counts_together [] }
    {
        TableCounts {
            runs: 0,
            files: 0,
            unread: 0,
            entries: EntryCounts {
                accepted: 0,
                refused: 0,
                skipped: 0,
                queries: 0,
                seals: 0,
            },
        }
    }

    pub(crate) fn of(run: &LedgerRun) -> TableCounts
        ensures { result ≡ counts_of run.now }
    {
        TableCounts {
            runs: 1,
            files: u128::from(run.files),
            unread: u128::from(run.unread),
            entries: EntryCounts::of(run.ledger.counts()),
        }
    }

    /// With what another table counts.
    pub fn plus(&self, more: &TableCounts) -> Result<TableCounts, AllocError>
        ensures { IfOk result (λ sum. sum ≡ counts_together (self.now ∷ more.now ∷ [])) }
    {
        Ok(TableCounts {
            runs: plus(self.runs, more.runs)?,
            files: plus(self.files, more.files)?,
            unread: plus(self.unread, more.unread)?,
            entries: both(&self.entries, &more.entries)?,
        })
    }
}

// The counts of some journals and of others.
fn both(some: &EntryCounts, more: &EntryCounts) -> Result<EntryCounts, AllocError>
    ensures { IfOk result (λ sum. sum ≡ entry_counts_together (some.now ∷ more.now ∷ [])) }
{
    Ok(EntryCounts {
        accepted: plus(some.accepted, more.accepted)?,
        refused: plus(some.refused, more.refused)?,
        skipped: plus(some.skipped, more.skipped)?,
        queries: plus(some.queries, more.queries)?,
        seals: plus(some.seals, more.seals)?,
    })
}

/// Whether the counts have 64 bits.
pub fn counts_fit(counts: &TableCounts) -> bool
    ensures { result ≡ counts_fit counts.now }
{
    is_narrow(counts.runs)
        && is_narrow(counts.files)
        && is_narrow(counts.unread)
        && entry_counts_fit(&counts.entries)
}

fn entry_counts_fit(counts: &EntryCounts) -> bool
    ensures { result ≡ entry_counts_fit counts.now }
{
    is_narrow(counts.accepted)
        && is_narrow(counts.refused)
        && is_narrow(counts.skipped)
        && is_narrow(counts.queries)
        && is_narrow(counts.seals)
}
