//! The rows of a part.
ghost use Rattle.std.specs.{Int.w64, Prelude.{◌≡◌, ◌<◌, ◌↔◌, ◌++◌, ◌∷◌, [], true, FitsSigned, IfOk, IfSome, IsTrue, Some, map}};
ghost use Rattle.span_parts.specs.{Row as TheRow, AreAmong, column_name, counted, counts_of, fit, json_line, only, HasSome, IsKeyOf, IsRowOf, IsSchema, IsWhole, MayHave, Rows.IsRowLine};

use crate::guess;
use crate::room::{LineRoom, is_line};
use crate::tokens::tokens_of;
use span_event::{ArgValue, Text};
use span_table::{Column, Number, Of, Row, Schema, Sums, fits, has_number};
use span_table_text::with_json_row;
use std::alloc::{AllocError, Global};
use std::mem::replace;

/// A schema that tables may have, and the names of its columns.
#[derive(Drop)]
pub(crate) struct RowShape<'a> {
    pub(crate) schema: &'a Schema,
    pub(crate) names: &'a [Text],
}

/// The row that was printed as this line, of a table of this schema. None where none was.
pub(crate) fn row_of_line(
    alloc: Global,
    shape: &RowShape,
    line: &str,
    room: &mut LineRoom,
) -> Result<Option<Row>, AllocError>
    requires schema { IsSchema shape.now.schema.now }
    requires names { shape.now.names.now ≡ map column_name shape.now.schema.now.columns }
    ensures is { IfOk result (λ found.
        IfSome found (IsRowLine shape.now.schema.now line.now)) }
    ensures found { IfOk result (λ found. (row : TheRow)
        → IsRowLine shape.now.schema.now line.now row → found ≡ Some row) }
{
    let schema = shape.schema;
    let tokens = tokens_of(alloc, line, &mut room.scratch)?;
    let Some(row) = guess::row_of(alloc, &schema.numbers, shape.names, &tokens)? else {
        return Ok(None);
    };
    if !is_row_of(schema, &row) {
        return Ok(None);
    }
    if !is_row(alloc, shape, &row, line, &mut room.printed)? {
        return Ok(None);
    }
    Ok(Some(row))
}

// Whether the row is printed as this line.
fn is_row(
    alloc: Global,
    shape: &RowShape,
    row: &Row,
    line: &str,
    printed: &mut Vec<u8>,
) -> Result<bool, AllocError>
    requires names { shape.now.names.now ≡ map column_name shape.now.schema.now.columns }
    requires fits { fit row.now.sums ≡ true }
    ensures { IfOk result (λ same. IsTrue same
        ↔ line.now ++ 10 ∷ [] ≡ json_line shape.now.schema.now row.now) }
{
    let mut out = replace(printed, Vec::new(alloc));
    out.clear();
    let out = with_json_row(out, shape.schema, shape.names, row)?;
    let same = is_line(&out, line);
    *printed = out;
    Ok(same)
}

fn is_row_of(schema: &Schema, row: &Row) -> bool
    ensures { IsTrue result ↔ IsRowOf schema.now row.now }
{
    fits(&row.sums)
        && has_own(&schema.numbers, &row.sums)
        && has_some(schema, &row.sums)
        && is_key_of(&schema.columns, row.key.values())
}

// Whether numbers that a table doesn't have are 0.
fn has_own(numbers: &[Number], sums: &Sums) -> bool
    ensures { IsTrue result ↔ sums.now ≡ only numbers.now sums.now }
{
    sums.equals(&sums.only(numbers))
}

// Whether a key of spans has one, and an asynchronous key a span or a point, as far as a table has these numbers.
fn has_some(schema: &Schema, sums: &Sums) -> bool
    ensures { IsTrue result ↔ HasSome schema.now sums.now }
{
    !tells_some(schema) || counts_some(schema.of, sums)
}

// Whether its counts tell that a key has something.
fn counts_some(of: Of, sums: &Sums) -> bool
    ensures { IsTrue result ↔ 0 < counted of sums.now }
{
    match of {
        Of::Spans => sums.count != 0,
        Of::Async => sums.count != 0 || sums.unclosed != 0 || sums.points != 0,
    }
}

// Whether the numbers of a table tell that a key has something.
fn tells_some(schema: &Schema) -> bool
    ensures { IsTrue result ↔ AreAmong (counts_of schema.now.of) schema.now.numbers }
{
    let numbers = schema.numbers.as_slice();
    match schema.of {
        Of::Spans => has_number(numbers, Number::Count),
        Of::Async => {
            has_number(numbers, Number::Closed)
                && has_number(numbers, Number::Open)
                && has_number(numbers, Number::Points)
        }
    }
}

fn is_key_of(columns: &[Column], values: &[Option<ArgValue>]) -> bool
    ensures { IsTrue result ↔ IsKeyOf columns.now values.now }
{
    let Some((column, columns)) = columns.split_first() else {
        return values.is_empty();
    };
    let Some((value, values)) = values.split_first() else {
        return false;
    };
    may_have(column, value) && is_key_of(columns, values)
}

fn may_have(column: &Column, value: &Option<ArgValue>) -> bool
    ensures { IsTrue result ↔ MayHave column.now value.now }
{
    match column {
        Column::Pid | Column::Tid => is_whole(value),
        Column::Process | Column::Thread | Column::ParentName => {
            matches!(value, None | Some(ArgValue::Words(_)))
        }
        Column::Name | Column::File | Column::Cat | Column::Scope | Column::Id => matches!(
            value,
            Some(ArgValue::Words(_))
        ),
        Column::Argument(_) | Column::ParentArgument(_) => {
            is_whole(value) || !matches!(value, Some(ArgValue::Whole(_)))
        }
    }
}

fn is_whole(value: &Option<ArgValue>) -> bool
    ensures { IsTrue result ↔ IsWhole value.now }
{
    match value {
        Some(ArgValue::Whole(number)) => has_word(*number),
        _ => false,
    }
}

// Numbers of this type have 64 bits, which is all that is said here.
fn has_word(_number: i64) -> bool
    ensures { IsTrue result ↔ FitsSigned w64 _number }
{
    true
}
