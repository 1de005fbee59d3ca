//! A run of files, as a table takes it.
ghost use Rattle.std.specs.Prelude.{◌≡◌, option_copied, IfOk};
ghost use Rattle.span_runs.specs.Runs.{only_name, run_of_files, table_of_run};

use span_collect::{Collected, Input};
use span_event::Text;
use span_names::HashKeys;
use span_table::{Schema, Table};
use std::alloc::{AllocError, Global};
use std::random::RandomSource;

/// The table with this schema of what was collected of these files as one run.
pub fn table_of_run<R: RandomSource>(
    rt: &R,
    alloc: Global,
    schema: &Schema,
    files: &[Input],
    collected: &Collected,
) -> Result<Table, AllocError>
    ensures { IfOk result (λ table. table ≡ table_of_run schema.now
        (run_of_files files.now collected.now.end.ends.items collected.now.ledger.journal)) }
{
    Table::of(
        alloc,
        HashKeys::random(rt),
        schema.try_clone(alloc)?,
        &collected.ledger,
        files.len() as u64,
        collected.end.unread(),
        only_name(files),
    )
}

// The name of the only file.
fn only_name(files: &[Input]) -> Option<&Text>
    ensures { option_copied result ≡ only_name files.now }
{
    match files {
        [file] => Some(&file.name),
        _ => None,
    }
}
