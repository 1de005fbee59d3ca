//! The text of repeated runs.
ghost use Rattle.std.specs.Prelude.{◌≡◌, ◌++◌, ◌∷◌, [], decimal, flat_map, map, string_bytes, OnOk, IfOk};
ghost use Rattle.span_comparisons.specs.Repeats.{overlap_line, repeats_of, spread_line, spread_titles, spread_words, wide};
ghost use Rattle.span_comparisons.specs.First.{first_lines};

use crate::comparing::{Comparing, first_of, put_more};
use crate::comparisons::{difference, put_heads};
use crate::repeated::repeated;
use crate::sides::side_counts;
use crate::spreads::{Spread, Spreads};
use span_report::{first_line, put_unit};
use span_table::{Column, OrderedTable};
use span_table_text::lines::put_shown;
use span_table_text::rows::{Cell, put_row, put_titles};
use std::alloc::{AllocError, Global};

// How wide the columns of spreads are at least.
const WIDTH: usize = 16;

const TITLES: [&str; 7] = [
    "dmedian",
    "median0",
    "median1",
    "least0",
    "greatest0",
    "least1",
    "greatest1",
];

/// The text of runs that were repeated on each of two sides: a table for each repetition, all of the same schema, by these columns. Of
/// the keys that are shown those of which the sides are apart by a number, the greatest change of its median first.
pub fn repeats(
    alloc: Global,
    columns: &[Column],
    base: &[OrderedTable],
    other: &[OrderedTable],
    asked: &Comparing,
) -> Result<Vec<u8>, AllocError>
    ensures { IfOk result (λ text. text.items ≡ repeats_of asked.now.unit asked.now.by
        asked.now.most asked.now.shown.now columns.now base.now other.now) }
{
    let Comparing {
        unit,
        by,
        shown,
        most,
    } = *asked;
    let mut out = first_line(alloc)?;
    put_unit(&mut out, unit)?;
    put_heads(&mut out, &side_counts(base)?, &side_counts(other)?, true)?;
    let found = repeated(alloc, base, other, shown, by)?;
    put_shown(&mut out, shown, found.keys.len() as u128, found.all as u128)?;
    let titles = titles_of(alloc)?;
    put_titles(alloc, &mut out, &titles, columns)?;
    put_first_lines(alloc, &mut out, &found.apart, most)?;
    put_overlap(&mut out, found.overlap, found.same)?;
    Ok(out.into_bytes())
}

// The titles of the spreads of both sides.
fn titles_of(alloc: Global) -> Result<Vec<Cell>, AllocError>
    ensures { IfOk result (λ cells. cells.items ≡ map wide spread_titles) }
{
    let mut cells = Vec::with_capacity(alloc, TITLES.len())?;
    for title in &TITLES {
        cells.push(Cell::new(WIDTH, String::from_str(alloc, title)?))?;
    }
    Ok(cells)
}

// Appends a line for each of the first keys, and how many more there are.
fn put_first_lines(
    alloc: Global,
    out: &mut String,
    apart: &[Spreads],
    most: Option<u32>,
) -> Result<(), AllocError>
    ensures { OnOk result (string_bytes out.new
        ≡ string_bytes out.old ++ first_lines spread_line most apart.now) }
{
    let first = first_of(apart, most);
    put_lines(alloc, out, first)?;
    put_more(out, apart.len() - first.len())
}

fn put_lines(alloc: Global, out: &mut String, apart: &[Spreads]) -> Result<(), AllocError>
    ensures { OnOk result (string_bytes out.new
        ≡ string_bytes out.old ++ flat_map spread_line apart.now) }
{
    for spreads in apart {
        let cells = cells_of(alloc, spreads)?;
        put_row(alloc, out, &cells, spreads.key)?;
    }
    Ok(())
}

// The spreads of both sides, after how the medians differ.
fn cells_of(alloc: Global, spreads: &Spreads) -> Result<Vec<Cell>, AllocError>
    ensures { IfOk result (λ cells. cells.items ≡ map wide (spread_words spreads.now)) }
{
    let (base, other) = (&spreads.base, &spreads.other);
    let mut cells = Vec::with_capacity(alloc, TITLES.len())?;
    let apart = difference(alloc, base.median, other.median)?;
    cells.push(Cell::new(WIDTH, apart))?;
    push_sum(alloc, &mut cells, base.median)?;
    push_sum(alloc, &mut cells, other.median)?;
    push_extent(alloc, &mut cells, base)?;
    push_extent(alloc, &mut cells, other)?;
    Ok(cells)
}

// The least and the greatest.
fn push_extent(alloc: Global, cells: &mut Vec<Cell>, spread: &Spread) -> Result<(), AllocError>
    ensures { OnOk result (cells.new.items ≡ cells.old.items
        ++ wide (decimal spread.now.least) ∷ wide (decimal spread.now.greatest) ∷ []) }
{
    push_sum(alloc, cells, spread.least)?;
    push_sum(alloc, cells, spread.greatest)?;
    Ok(())
}

fn push_sum(alloc: Global, cells: &mut Vec<Cell>, sum: u128) -> Result<(), AllocError>
    ensures { OnOk result (cells.new.items ≡ cells.old.items ++ wide (decimal sum) ∷ []) }
{
    cells.push(Cell::new(WIDTH, format!(in alloc; "{sum}")?))?;
    Ok(())
}

#[tactic(auto, unfolding(crate::specs::Repeats::overlap_line))]
fn put_overlap(out: &mut String, overlap: u128, same: u128) -> Result<(), AllocError>
    ensures { OnOk result (string_bytes out.new
        ≡ string_bytes out.old ++ overlap_line overlap same) }
{
    writeln!(out, "overlap {overlap} same {same}")
}
