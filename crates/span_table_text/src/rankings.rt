//! The text of a ranking: the rows of a table that come first by a number.
ghost use Rattle.std.specs.{List.IsDistinct, Ordering.eq_by_cmp, Prelude.{◌≡◌, ◌++◌, string_bytes, take, flat_map, OnOk, IfOk}};
ghost use Rattle.span_table_text.specs.{Ranking.{ranked_line, ranking_of}, Ranks.{ranking_order, ranked}};

use crate::lines::{put_runs, put_shown};
use crate::rows::{number_titles, put_row, put_titles, value_cells};
use crate::shown::Shown;
use span_event::Unit;
use span_report::head;
use span_table::{Number, RowRef, Schema, Table};
use std::alloc::{AllocError, Global};
use std::cmp::Ordering;

/// The text of the ranking of a table in a unit, with at most so many of the rows that are shown. Its head says how many runs there
/// are or doesn't.
pub fn ranking(
    alloc: Global,
    unit: Unit,
    table: &Table,
    shown: &Shown,
    most: u32,
    by: Number,
    says_runs: bool,
) -> Result<Vec<u8>, AllocError>
    ensures { IfOk result (λ text. text.items
        ≡ ranking_of unit most by shown.now says_runs table.now) }
{
    let mut out = head(alloc, unit, &table.counts().entries)?;
    put_runs(&mut out, &table.counts(), says_runs)?;
    let mut rows = shown.rows(alloc, table.rows())?;
    put_shown(&mut out, shown, rows.len() as u128, table.len() as u128)?;
    let schema = table.schema();
    let titles = number_titles(alloc, &schema.numbers)?;
    put_titles(alloc, &mut out, &titles, &schema.columns)?;
    let first = first_ranked(&mut rows, by, most as usize);
    put_rows(alloc, &mut out, schema, first)?;
    Ok(out.into_bytes())
}

// Which of two comes first.
fn compare(shown: &RowRef, other: &RowRef, by: Number) -> Ordering
    ensures { result ≡ ranking_order by shown.now other.now }
{
    let (row, next) = (shown.row(), other.row());
    let by_key = row.key.cmp(&next.key);
    next.sums.by(by).cmp(&row.sums.by(by)).then(by_key)
}

// The first rows in the order of a ranking, so many at most. The others are told from them, and not put in order.
fn first_ranked<'r, 'a>(rows: &'r mut [RowRef<'a>], by: Number, most: usize) -> &'r mut [RowRef<'a>]
    requires { IsDistinct (eq_by_cmp (ranking_order by)) rows.old }
    ensures { result.now ≡ take most (ranked by rows.old) }
{
    if rows.len() <= most {
        rows.sort_unstable_by(|a, b| compare(a, b, by));
        return rows;
    }
    let (first, _, _) = rows.select_nth_unstable_by(most, |a, b| compare(a, b, by));
    first.sort_unstable_by(|a, b| compare(a, b, by));
    first
}

fn put_rows(
    alloc: Global,
    out: &mut String,
    schema: &Schema,
    rows: &[RowRef],
) -> Result<(), AllocError>
    ensures { OnOk result (string_bytes out.new
        ≡ string_bytes out.old ++ flat_map (ranked_line schema.now) rows.now) }
{
    for ranked in rows {
        let row = ranked.row();
        let cells = value_cells(alloc, &schema.numbers, &row.sums)?;
        put_row(alloc, out, &cells, &row.key)?;
    }
    Ok(())
}
