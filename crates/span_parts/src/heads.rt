//! The first line of a part.
ghost use Rattle.std.specs.{List.list_any, Prelude.{◌≡◌, ◌↔◌, ◌==◌, ◌++◌, ◌∷◌, [], true, ℕ, map, IfErr, IfOk, IfSome, IsTrue}};
ghost use Rattle.span_parts.specs.{Bytes, Unit as TheUnit, TableCounts as TheCounts, Schema as TheSchema, column_name, counts_fit, json_head, is_column, is_key, number_name, AreColumns, AreDistinct, AreNumbers, IsSchema, First.{Begins, IsFirstLine, MayBegin, Says}, Sum.FailsToBegin};

use crate::fault::PartFault;
use crate::guess::{FirstLine, first_line_of};
use crate::room::{LineRoom, is_line};
use crate::tokens::tokens_of;
use span_event::Text;
use span_table::{Column, Number, Of, Schema, counts_fit, has_number};
use span_table_text::{Head, column_names, with_json_head};
use std::alloc::{AllocError, Global};

/// A table has at most so many.
pub(crate) const MOST_COLUMNS: usize = 8;

/// The first line of a part, and what is behind it.
pub(crate) fn begin<'a>(
    alloc: Global,
    text: &'a [u8],
    room: &mut LineRoom,
) -> Result<(FirstLine, &'a str), PartFault>
    ensures begins { IfOk result (λ begun. Begins text.now begun.0 begun.1.now) }
    ensures fault { IfErr result (FailsToBegin text.now) }
{
    let Ok(text) = str::from_utf8(text) else {
        return Err(PartFault::NotTable);
    };
    let Some((line, rest)) = text.split_once('\n') else {
        return Err(PartFault::NotTable);
    };
    match head_of_line(alloc, line, room) {
        Ok(Some(first)) => Ok((first, rest)),
        Ok(None) => Err(PartFault::NotTable),
        Err(_) => Err(PartFault::Memory),
    }
}

// What was printed as this first line. None where it is none.
fn head_of_line(
    alloc: Global,
    line: &str,
    room: &mut LineRoom,
) -> Result<Option<FirstLine>, AllocError>
    ensures is { IfOk result (λ found. IfSome found (IsFirstLine line.now)) }
    ensures found { IfOk result (λ found.
        (schema : TheSchema) (unit : TheUnit) (rows : ℕ) (counts : TheCounts)
        → MayBegin schema rows counts
        → line.now ++ 10 ∷ [] ≡ json_head schema unit rows counts
        → Says schema unit rows counts found) }
{
    let tokens = tokens_of(alloc, line, &mut room.scratch)?;
    let Some(first) = first_line_of(alloc, &tokens)? else {
        return Ok(None);
    };
    let schema = &first.schema;
    let names = column_names(alloc, &schema.columns)?;
    if !is_schema(schema, &names) {
        return Ok(None);
    }
    if !counts_fit(&first.counts) {
        return Ok(None);
    }
    if !is_head(alloc, &first, &names, line)? {
        return Ok(None);
    }
    Ok(Some(first))
}

// Whether this is printed as the line.
fn is_head(alloc: Global, first: &FirstLine, names: &[Text], line: &str) -> Result<bool, AllocError>
    requires names { names.now ≡ map column_name first.now.schema.columns }
    requires counts { counts_fit first.now.counts ≡ true }
    ensures { IfOk result (λ same. IsTrue same ↔ line.now ++ 10 ∷ []
        ≡ json_head first.now.schema first.now.unit first.now.rows first.now.counts) }
{
    let head = Head {
        schema: &first.schema,
        unit: first.unit,
        names,
        rows: first.rows,
        counts: first.counts,
    };
    let printed = with_json_head(Vec::new(alloc), &head)?;
    Ok(is_line(&printed, line))
}

// Whether a table may have this schema, whose columns have these names.
fn is_schema(schema: &Schema, names: &[Text]) -> bool
    requires { names.now ≡ map column_name schema.now.columns }
    ensures { IsTrue result ↔ IsSchema schema.now }
{
    are_columns(schema.of, &schema.columns, names) && are_numbers(schema.of, &schema.numbers)
}

// Whether a table that sums this may have these numbers.
fn are_numbers(of: Of, numbers: &[Number]) -> bool
    ensures { IsTrue result ↔ AreNumbers of numbers.now }
{
    !numbers.is_empty()
        && numbers.iter().all(|number| has_number(of.all(), *number))
        && differ(numbers)
}

// Whether no number comes twice.
fn differ(numbers: &[Number]) -> bool
    ensures { IsTrue result ↔ AreDistinct (map number_name numbers.now) }
{
    let Some((number, later)) = numbers.split_first() else {
        return true;
    };
    !has_number(later, *number) && differ(later)
}

// Whether a table that sums this may have these columns, of these names.
fn are_columns(of: Of, columns: &[Column], names: &[Text]) -> bool
    requires { names.now ≡ map column_name columns.now }
    ensures { IsTrue result ↔ AreColumns of columns.now }
{
    !columns.is_empty()
        && columns.len() <= MOST_COLUMNS
        && columns.iter().all(|column| is_column(column))
        && columns.iter().all(|column| column.goes_with(of))
        && are_distinct(names)
}

fn is_column(column: &Column) -> bool
    ensures { result ≡ is_column column.now }
{
    match column {
        Column::Argument(key) | Column::ParentArgument(key) => is_key(key),
        _ => true,
    }
}

fn is_key(key: &Text) -> bool
    ensures { result ≡ is_key key.now }
{
    !key.as_str().is_empty() && !has_comma(key)
}

fn has_comma(key: &Text) -> bool
    ensures { result ≡ list_any (λ byte. byte == 44) key.now }
{
    key.as_str().as_bytes().iter().any(|byte| *byte == b',')
}

fn are_distinct(names: &[Text]) -> bool
    ensures { IsTrue result ↔ AreDistinct names.now }
{
    let Some((name, names)) = names.split_first() else {
        return true;
    };
    !names.contains(name) && are_distinct(names)
}
