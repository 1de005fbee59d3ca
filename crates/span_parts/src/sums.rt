//! The rows of a part, which are added one after another.
ghost use Rattle.std.specs.Prelude.{◌≡◌, ◌++◌, ◌∷◌, [], map, IfErr, IfOk, IsTrue, OnOk};
ghost use Rattle.span_parts.specs.{Row as TheRow, picked, with_row, column_name, Bytes, IsSchema, First.{Begins, MayBegin}, Rows.{AllAdded, IsNextRow, RowFails, RowsFail, comes_after, row_at}, Sum.{HasSchema, IsAdded, SumFails}};

use crate::choice::RowChoice;
use crate::fault::PartFault;
use crate::guess::FirstLine;
use crate::room::LineRoom;
use crate::rows::{RowShape, row_of_line};
use span_event::ArgValue;
use span_names::HashKeys;
use span_table::{Key, Of, Row, Schema, TableSum, copy_of};
use span_table_text::column_names;
use std::alloc::{AllocError, Global};

/// Adds a part that begins so, and whose rows are this rest.
pub(crate) fn add_part(
    alloc: Global,
    choice: &RowChoice,
    first: &FirstLine,
    rest: &str,
    sum: TableSum,
    room: &mut LineRoom,
) -> Result<TableSum, PartFault>
    requires { MayBegin first.now.schema first.now.rows first.now.counts }
    ensures added { IfOk result (λ new. (text : Bytes) → Begins text first.now rest.now
        → IsAdded first.now.schema first.now.unit choice.now text sum.table new.table) }
    ensures fault { IfErr result (λ fault. (text : Bytes) → Begins text first.now rest.now
        → SumFails text fault) }
{
    let mut sum = sum;
    sum.add_counts(&first.counts)?;
    add_rows(
        alloc,
        &first.schema,
        choice,
        rest,
        first.rows,
        &mut sum,
        room,
    )?;
    Ok(sum)
}

/// Looks whether a part begins so, and its rows are this rest.
pub(crate) fn look_through(
    alloc: Global,
    first: &FirstLine,
    rest: &str,
    room: &mut LineRoom,
) -> Result<(), PartFault>
    requires { MayBegin first.now.schema first.now.rows first.now.counts }
    ensures is { OnOk result ((text : Bytes) → Begins text first.now rest.now
        → HasSchema first.now.schema first.now.unit text) }
    ensures fault { IfErr result (λ fault. (text : Bytes) → Begins text first.now rest.now
        → SumFails text fault) }
{
    // All rows have one key, of no values, so there is nothing to keep.
    let schema = Schema::new(alloc, Of::Spans, &[], &[])?;
    let sum = TableSum::new(alloc, HashKeys::fixed(), schema);
    match add_part(alloc, &RowChoice::of(&[], &[]), first, rest, sum, room) {
        Ok(sum) => {
            drop(sum);
            Ok(())
        }
        Err(fault) => Err(fault),
    }
}

// Adds what is chosen of the rows of a table of this schema, which are to be so many. Those before a fault are added nevertheless.
fn add_rows(
    alloc: Global,
    schema: &Schema,
    choice: &RowChoice,
    text: &str,
    count: u64,
    sum: &mut TableSum,
    room: &mut LineRoom,
) -> Result<(), PartFault>
    requires { IsSchema schema.now }
    ensures added { OnOk result
        (AllAdded schema.now choice.now text.now count sum.old.table sum.new.table) }
    ensures fault { IfErr result (RowsFail schema.now text.now count) }
{
    let names = column_names(alloc, &schema.columns)?;
    let shape = RowShape {
        schema,
        names: &names,
    };
    let mut last = None;
    let mut rest = text;
    let mut done = 0;
    while let Some((line, after)) = rest.split_once('\n') {
        let row = match next_row(alloc, &shape, line, &last, room) {
            Ok(row) => row,
            Err(fault) => return Err(fault),
        };
        last = Some(add_row(alloc, sum, choice, row)?);
        rest = after;
        done += 1;
    }
    if !rest.is_empty() {
        return Err(PartFault::NotTable);
    }
    if done != count {
        return Err(PartFault::NotTable);
    }
    Ok(())
}

// The row of the next line, which comes after the last one.
fn next_row(
    alloc: Global,
    shape: &RowShape,
    line: &str,
    last: &Option<Row>,
    room: &mut LineRoom,
) -> Result<Row, PartFault>
    requires schema { IsSchema shape.now.schema.now }
    requires names { shape.now.names.now ≡ map column_name shape.now.schema.now.columns }
    ensures row { IfOk result (IsNextRow shape.now.schema.now line.now last.now) }
    ensures only { IfOk result (λ row. (other : TheRow)
        → IsNextRow shape.now.schema.now line.now last.now other → row ≡ other) }
    ensures fault { IfErr result (RowFails shape.now.schema.now line.now last.now) }
{
    match row_of_line(alloc, shape, line, room) {
        Ok(Some(row)) if comes_after(&row, last) => Ok(row),
        Ok(_) => Err(PartFault::NotTable),
        Err(_) => Err(PartFault::Memory),
    }
}

// Whether the row's key is greater than that of the last one, if there is one.
fn comes_after(row: &Row, last: &Option<Row>) -> bool
    ensures { result ≡ comes_after row.now last.now }
{
    match last {
        Some(last) => last.key.cmp(&row.key).is_lt(),
        None => true,
    }
}

// Adds what is chosen of a row, and gives the row back.
fn add_row(
    alloc: Global,
    sum: &mut TableSum,
    choice: &RowChoice,
    row: Row,
) -> Result<Row, AllocError>
    ensures added { OnOk result
        (sum.new.table ≡ with_row sum.old.table (row_at choice.now row)) }
    ensures same { IfOk result (λ back. back ≡ row) }
{
    let sums = row.sums;
    let taken = sums.only(choice.numbers);
    if takes_all(choice.places, row.key.values()) {
        let own = Row {
            key: row.key,
            sums: taken,
        };
        sum.add_row(&own)?;
        return Ok(Row { key: own.key, sums });
    }
    sum.add_row(&Row {
        key: key_at(alloc, choice.places, &row.key)?,
        sums: taken,
    })?;
    Ok(row)
}

// Whether these are the places of all the values, in their order.
fn takes_all(places: &[usize], values: &[Option<ArgValue>]) -> bool
    ensures { IsTrue result → picked places.now values.now ≡ values.now }
{
    if places.len() != values.len() {
        return false;
    }
    let mut at = 0;
    while at < places.len() {
        if places[at] != at {
            return false;
        }
        at += 1;
    }
    true
}

// The values at these places of a key.
fn key_at(alloc: Global, places: &[usize], key: &Key) -> Result<Key, AllocError>
    ensures { IfOk result (λ made. made ≡ picked places.now key.now) }
{
    let mut values = Vec::with_capacity(alloc, places.len())?;
    for place in places {
        push_value(alloc, &mut values, key, *place)?;
    }
    Ok(Key::of(values))
}

// Appends the value at a place of a key, if it has one.
fn push_value(
    alloc: Global,
    values: &mut Vec<Option<ArgValue>>,
    key: &Key,
    place: usize,
) -> Result<(), AllocError>
    ensures { OnOk result (values.new.items ≡ values.old.items ++ picked (place ∷ []) key.now) }
{
    match key.values().get(place) {
        Some(value) => {
            values.push(copy_of(alloc, value.as_ref())?)?;
            Ok(())
        }
        None => Ok(()),
    }
}
