//! The text of a comparison of two tables.
ghost use Rattle.std.specs.Prelude.{◌≡◌, ◌++◌, string_bytes, flat_map, OnOk, IfOk};
ghost use Rattle.span_comparisons.specs.Comparison.{base_lines, base_runs_line, changed_cells, changed_titles, compared_heads, comparison_of, difference_text, numbers_line, other_lines, same_line};
ghost use Rattle.span_comparisons.specs.First.{first_lines};

use crate::changes::{Both, Changed, differences};
use crate::comparing::{Comparing, first_of, put_more};
use crate::numbers::compared_numbers;
use span_report::{EntryCounts, first_line, put_counts, put_seals, put_unit};
use span_table::{Number, OrderedTable, TableCounts};
use span_table_text::lines::{put_runs, put_shown};
use span_table_text::rows::{Cell, put_row, put_titles};
use std::alloc::{AllocError, Global};
use std::cmp::Ordering;

/// The text of the comparison of two tables of the same schema: of the keys that are shown those of which a number differs, the
/// greatest change of the number that is asked for first. The heads say how many runs there are or don't.
pub fn comparison(
    alloc: Global,
    base: &OrderedTable,
    other: &OrderedTable,
    asked: &Comparing,
    says_runs: bool,
) -> Result<Vec<u8>, AllocError>
    ensures { IfOk result (λ text. text.items ≡ comparison_of asked.now.unit asked.now.by
        asked.now.most asked.now.shown.now says_runs base.now other.now) }
{
    let Comparing {
        unit,
        by,
        shown,
        most,
    } = *asked;
    let mut out = first_line(alloc)?;
    put_unit(&mut out, unit)?;
    put_heads(&mut out, &base.counts(), &other.counts(), says_runs)?;
    let schema = other.schema();
    let found = differences(alloc, &schema.numbers, base.rows(), other.rows(), shown, by)?;
    put_shown(&mut out, shown, found.shown, found.all)?;
    let numbers = compared_numbers(alloc, schema)?;
    let titles = titles_of(alloc, &numbers)?;
    put_titles(alloc, &mut out, &titles, &schema.columns)?;
    put_first_changes(alloc, &mut out, &numbers, &found.changes, most)?;
    put_same(&mut out, found.same)?;
    Ok(out.into_bytes())
}

/// Appends both heads but for their first line.
#[tactic(auto, using(std::proofs::Common::append_assoc), unfolding(crate::specs::Comparison::compared_heads))]
pub(crate) fn put_heads(
    out: &mut String,
    base: &TableCounts,
    other: &TableCounts,
    says_runs: bool,
) -> Result<(), AllocError>
    ensures { OnOk result (string_bytes out.new
        ≡ string_bytes out.old ++ compared_heads says_runs base.now other.now) }
{
    put_base(out, &base.entries)?;
    put_base_runs(out, base, says_runs)?;
    put_other(out, &other.entries)?;
    put_runs(out, other, says_runs)
}

fn put_base(out: &mut String, entries: &EntryCounts) -> Result<(), AllocError>
    ensures { OnOk result (string_bytes out.new ≡ string_bytes out.old ++ base_lines entries.now) }
{
    out.push_str("base ")?;
    put_counts(out, entries)?;
    if entries.seals == 0 {
        return Ok(());
    }
    out.push_str("base ")?;
    put_seals(out, entries.seals)
}

fn put_base_runs(out: &mut String, counts: &TableCounts, says_runs: bool) -> Result<(), AllocError>
    ensures { OnOk result (string_bytes out.new
        ≡ string_bytes out.old ++ base_runs_line says_runs counts.now) }
{
    if !says_runs {
        return Ok(());
    }
    out.push_str("base ")?;
    put_runs(out, counts, true)
}

fn put_other(out: &mut String, entries: &EntryCounts) -> Result<(), AllocError>
    ensures { OnOk result (string_bytes out.new ≡ string_bytes out.old ++ other_lines entries.now) }
{
    put_counts(out, entries)?;
    put_seals(out, entries.seals)
}

// Appends a line with these numbers for each of the first changes, and how many more there are.
fn put_first_changes(
    alloc: Global,
    out: &mut String,
    numbers: &[Number],
    changes: &[Changed],
    most: Option<u32>,
) -> Result<(), AllocError>
    ensures { OnOk result (string_bytes out.new
        ≡ string_bytes out.old ++ first_lines (numbers_line numbers.now) most changes.now) }
{
    let first = first_of(changes, most);
    put_changes(alloc, out, numbers, first)?;
    put_more(out, changes.len() - first.len())
}

fn put_changes(
    alloc: Global,
    out: &mut String,
    numbers: &[Number],
    changes: &[Changed],
) -> Result<(), AllocError>
    ensures { OnOk result (string_bytes out.new
        ≡ string_bytes out.old ++ flat_map (numbers_line numbers.now) changes.now) }
{
    for change in changes {
        let cells = cells_of(alloc, numbers, &change.both)?;
        put_row(alloc, out, &cells, change.key)?;
    }
    Ok(())
}

// The titles of these numbers.
fn titles_of(alloc: Global, numbers: &[Number]) -> Result<Vec<Cell>, AllocError>
    ensures { IfOk result (λ cells. cells.items ≡ flat_map changed_titles numbers.now) }
{
    let mut cells = Vec::new(alloc);
    for number in numbers {
        push_titles(alloc, &mut cells, *number)?;
    }
    Ok(cells)
}

fn push_titles(alloc: Global, cells: &mut Vec<Cell>, number: Number) -> Result<(), AllocError>
    ensures { OnOk result (cells.new.items ≡ cells.old.items ++ changed_titles number) }
{
    let name = number.name();
    if number.is_time() {
        cells.push(Cell::of(number, format!(in alloc; "d{name}")?))?;
    }
    cells.push(Cell::of(number, format!(in alloc; "{name}0")?))?;
    cells.push(Cell::of(number, format!(in alloc; "{name}1")?))?;
    Ok(())
}

// These numbers on both sides, times after how they differ.
fn cells_of(alloc: Global, numbers: &[Number], both: &Both) -> Result<Vec<Cell>, AllocError>
    ensures { IfOk result (λ cells. cells.items
        ≡ flat_map (changed_cells both.now) numbers.now) }
{
    let mut cells = Vec::new(alloc);
    for number in numbers {
        push_cells(alloc, &mut cells, *number, both)?;
    }
    Ok(cells)
}

fn push_cells(
    alloc: Global,
    cells: &mut Vec<Cell>,
    number: Number,
    both: &Both,
) -> Result<(), AllocError>
    ensures { OnOk result (cells.new.items ≡ cells.old.items ++ changed_cells both.now number) }
{
    let (base, other) = (both.base.by(number), both.other.by(number));
    if number.is_time() {
        let apart = difference(alloc, base, other)?;
        cells.push(Cell::of(number, apart))?;
    }
    cells.push(Cell::of(number, format!(in alloc; "{base}")?))?;
    cells.push(Cell::of(number, format!(in alloc; "{other}")?))?;
    Ok(())
}

/// How much more the other has, with `+`, or how much less, with `-`.
pub(crate) fn difference(alloc: Global, base: u128, other: u128) -> Result<String, AllocError>
    ensures { IfOk result (λ text. string_bytes text ≡ difference_text base other) }
{
    let apart = base.abs_diff(other);
    match base.cmp(&other) {
        Ordering::Less => format!(in alloc; "+{apart}"),
        Ordering::Equal => String::from_str(alloc, "0"),
        Ordering::Greater => format!(in alloc; "-{apart}"),
    }
}

#[tactic(auto, unfolding(crate::specs::Comparison::same_line))]
fn put_same(out: &mut String, count: u128) -> Result<(), AllocError>
    ensures { OnOk result (string_bytes out.new ≡ string_bytes out.old ++ same_line count) }
{
    writeln!(out, "same {count}")
}
