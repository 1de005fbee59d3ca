//! Files of which events were refused.
ghost use Rattle.std.specs.Prelude.{◌≡◌, ◌++◌, List, length, IfOk, OnOk};
ghost use Rattle.span_collect.specs.{Entry, Refusals.{Tallies.tallies_of, Warnings.{file_warnings, most_of, warning_in, warnings_of}}};

use super::tallies::tallies;
use super::tally::{Refused, Tally};
use crate::files::{FileEnd, Input};
use span_event::Text;
use span_ledger::Ledger;
use std::alloc::{AllocError, Global};
use std::collections::BTreeMap;

/// A file of which events were refused.
#[derive(Drop)]
pub struct Warning {
    pub name: Text,
    /// How many events were refused, one at least.
    pub refused: u32,
    /// How many were accepted.
    pub accepted: u32,
    /// The number that refused most of them; of several such, the least.
    pub code: u16,
}

/// The files of which events were refused, by the ledger's journal, in the order of the files. There is one end for each file, in
/// order.
pub fn warnings_of(
    alloc: Global,
    ledger: &Ledger,
    files: &[Input],
    ends: &[FileEnd],
) -> Result<Vec<Warning>, AllocError>
    requires { length files.now ≡ length ends.now }
    ensures { IfOk result (λ warnings. warnings.items
        ≡ warnings_of files.now ends.now ledger.now.journal) }
{
    let mut warnings = Vec::new(alloc);
    if ledger.counts().refused == 0 {
        return Ok(warnings);
    }
    let tallies = tallies(alloc, ledger)?;
    for (place, file) in files.iter().enumerate() {
        push_file(alloc, &mut warnings, &file.name, ends[place], &tallies)?;
    }
    Ok(warnings)
}

// The warning of a file. A caller of which nothing is kept has no entry.
fn push_file(
    alloc: Global,
    warnings: &mut Vec<Warning>,
    name: &Text,
    end: FileEnd,
    tallies: &BTreeMap<u32, Tally>,
) -> Result<(), AllocError>
    ensures { OnOk result ((journal : List Entry) → tallies.now.entries ≡ tallies_of journal
        → warnings.new.items ≡ warnings.old.items ++ file_warnings journal name.now end) }
{
    let Some(caller) = end.caller() else {
        return Ok(());
    };
    match tallies.get(&caller) {
        Some(tally) => push_tally(alloc, warnings, name, tally),
        None => Ok(()),
    }
}

fn push_tally(
    alloc: Global,
    warnings: &mut Vec<Warning>,
    name: &Text,
    tally: &Tally,
) -> Result<(), AllocError>
    ensures { OnOk result (warnings.new.items ≡ warnings.old.items
        ++ warning_in name.now tally.now.counts tally.now.refused) }
{
    let counts = tally.counts;
    if counts.refused == 0 {
        return Ok(());
    }
    let name = name.try_clone(alloc)?;
    warnings.push(Warning {
        name,
        refused: counts.refused,
        accepted: counts.accepted,
        code: most_of(&tally.refused),
    })?;
    Ok(())
}

// The number that refused most.
fn most_of(rows: &BTreeMap<u16, Refused>) -> u16
    ensures { result ≡ (most_of rows.now.entries).0 }
{
    let mut most: (u16, u32) = (0, 0);
    for (code, refused) in rows {
        if most.1 < refused.count {
            most = (*code, refused.count);
        }
    }
    most.0
}
