//! The text that says which items were refused.
ghost use Rattle.std.specs.Prelude.{◌≡◌, ◌++◌, ℕ, List, length, flat_map, string_bytes, IfOk, OnOk};
ghost use Rattle.span_collect.specs.{Entry, Refusals.{Tallies.tallies_of, Text.{file_lines, refused_line, refusals_of}}};

use super::tallies::tallies;
use super::tally::{Refused, Tally};
use crate::files::{FileEnd, Input};
use crate::words::numbered_text;
use span_event::{Text, Unit};
use span_ledger::Ledger;
use span_report::{EntryCounts, head, json_text};
use std::alloc::{AllocError, Global};
use std::collections::BTreeMap;

/// The text of what was refused of each file, by the ledger's journal: which numbers, how many items each, and which item first,
/// counted from 0 among the file's. Its head says the unit of the run. There is one end for each file, in order.
pub fn refusals(
    alloc: Global,
    unit: Unit,
    ledger: &Ledger,
    files: &[Input],
    ends: &[FileEnd],
) -> Result<Vec<u8>, AllocError>
    requires { length files.now ≡ length ends.now }
    ensures { IfOk result (λ text. text.items
        ≡ refusals_of unit files.now ends.now ledger.now.journal) }
{
    let text = refusals_text(alloc, unit, ledger, files, ends)?;
    Ok(text.into_bytes())
}

/// As `refusals`, for texts that hold it.
pub fn refusals_text(
    alloc: Global,
    unit: Unit,
    ledger: &Ledger,
    files: &[Input],
    ends: &[FileEnd],
) -> Result<String, AllocError>
    requires { length files.now ≡ length ends.now }
    ensures { IfOk result (λ text. string_bytes text
        ≡ refusals_of unit files.now ends.now ledger.now.journal) }
{
    let mut out = head(alloc, unit, &EntryCounts::of(ledger.counts()))?;
    let tallies = tallies(alloc, ledger)?;
    for (place, file) in files.iter().enumerate() {
        put_file(alloc, &mut out, &file.name, ends[place], &tallies)?;
    }
    Ok(out)
}

// The lines of a file. A caller of which nothing is kept has no entry.
fn put_file(
    alloc: Global,
    out: &mut String,
    name: &Text,
    end: FileEnd,
    tallies: &BTreeMap<u32, Tally>,
) -> Result<(), AllocError>
    ensures { OnOk result ((journal : List Entry) → tallies.now.entries ≡ tallies_of journal
        → string_bytes out.new ≡ string_bytes out.old ++ file_lines journal name.now end) }
{
    let Some(caller) = end.caller() else {
        return Ok(());
    };
    match tallies.get(&caller) {
        Some(tally) => put_refused(alloc, out, name, tally),
        None => Ok(()),
    }
}

fn put_refused(
    alloc: Global,
    out: &mut String,
    name: &Text,
    tally: &Tally,
) -> Result<(), AllocError>
    ensures { OnOk result (string_bytes out.new
        ≡ string_bytes out.old ++ flat_map (refused_line name.now) tally.now.refused) }
{
    for (code, refused) in &tally.refused {
        put_line(alloc, out, name, *code, *refused)?;
    }
    Ok(())
}

#[tactic(auto, using(span_report::proofs::Padding::padded_integral_right, std::proofs::Common::append_assoc), unfolding(crate::specs::Refusals::Text::refused_line))]
fn put_line(
    alloc: Global,
    out: &mut String,
    name: &Text,
    code: u16,
    refused: Refused,
) -> Result<(), AllocError>
    ensures { OnOk result (string_bytes out.new
        ≡ string_bytes out.old ++ refused_line name.now (code, refused)) }
{
    let name = json_text(alloc, name)?;
    let fault = numbered_text(alloc, code)?;
    let Refused { count, first } = refused;
    writeln!(out, "refused {count:>8} {fault} first {first} {name}")
}
