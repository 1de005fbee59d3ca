//! What the lines for other programs are made of, each of which is written by a writer of its own.
ghost use Rattle.std.specs.Prelude.{◌≡◌, ◌<◌, ◌^◌, ◌++◌, ◌∷◌, [], true, map, IfOk, IsUtf8, OnOk, Some};
ghost use Rattle.json.specs.Token.{key, string};
ghost use Rattle.span_table_text.specs.{column_name, counts_fit, entry_counts_fit, fit, number_name, Printed.{IsOfArgument, KeyFits}, Tokens.{Appends, counts_tokens, entry_counts_tokens, key_tokens, list_tokens, number_tokens, of_tokens, start_tokens, sums_tokens, token_line, unit_tokens, value_tokens}};

use json::Writer;
use span_event::{ArgValue, Text, Unit};
use span_table::{Audience, Column, EntryCounts, Number, Of, Schema, Sums, TableCounts, are_same};
use std::alloc::{AllocError, Global};

/// What these columns are called.
pub fn column_names(alloc: Global, columns: &[Column]) -> Result<Vec<Text>, AllocError>
    ensures { IfOk result (λ names. names.items ≡ map column_name columns.now) }
{
    let mut names = Vec::with_capacity(alloc, columns.len())?;
    for column in columns {
        names.push(column.name(alloc)?)?;
    }
    Ok(names)
}

/// What was written before the writer's tokens, and then these as a line.
pub fn ended(writer: Writer) -> Result<Vec<u8>, AllocError>
    ensures line { IfOk result (λ line. line.items ≡ writer.before ++ token_line writer.tokens) }
    ensures utf8 { OnOk result (IsUtf8 (token_line writer.tokens)) }
{
    let mut out = writer.into_inner();
    match out.push(b'\n') {
        Ok(()) => Ok(out),
        Err(_) => Err(AllocError),
    }
}

/// Writes what a first line says of a schema, whose columns have these names.
#[tactic(auto, using(std::proofs::Common::append_assoc))]
pub fn put_start(
    writer: &mut Writer,
    schema: &Schema,
    unit: Unit,
    names: &[Text],
) -> Result<(), AllocError>
    requires { names.now ≡ map column_name schema.now.columns }
    ensures { Appends result writer.old writer.new (start_tokens schema.now unit []) }
{
    writer.begin_object()?;
    writer.key("tracebook")?;
    writer.u64(1)?;
    put_of(writer, schema.of)?;
    put_unit(writer, unit)?;
    writer.key("columns")?;
    writer.begin_array()?;
    put_names(writer, names)?;
    writer.end_array()?;
    put_list(writer, schema)
}

// Writes the numbers of rows, where they aren't the usual ones.
fn put_list(writer: &mut Writer, schema: &Schema) -> Result<(), AllocError>
    ensures { Appends result writer.old writer.new (list_tokens schema.now []) }
{
    if are_same(&schema.numbers, schema.of.numbers(Audience::Programs)) {
        return Ok(());
    }
    writer.key("numbers")?;
    writer.begin_array()?;
    put_number_names(writer, &schema.numbers)?;
    writer.end_array()
}

fn put_number_names(writer: &mut Writer, numbers: &[Number]) -> Result<(), AllocError>
    ensures { Appends result writer.old writer.new (map string (map number_name numbers.now)) }
{
    for number in numbers {
        writer.string(number.name())?;
    }
    Ok(())
}

fn put_of(writer: &mut Writer, of: Of) -> Result<(), AllocError>
    ensures { Appends result writer.old writer.new (of_tokens of) }
{
    match of {
        Of::Spans => Ok(()),
        Of::Async => {
            writer.key("of")?;
            writer.string("async")
        }
    }
}

fn put_unit(writer: &mut Writer, unit: Unit) -> Result<(), AllocError>
    ensures { Appends result writer.old writer.new (unit_tokens unit) }
{
    match unit {
        Unit::Microseconds => Ok(()),
        Unit::Nanoseconds => {
            writer.key("unit")?;
            writer.string("ns")
        }
    }
}

fn put_names(writer: &mut Writer, names: &[Text]) -> Result<(), AllocError>
    ensures { Appends result writer.old writer.new (map string names.now) }
{
    for name in names {
        writer.string(name.as_str())?;
    }
    Ok(())
}

/// Writes counts that 64 bits hold.
#[tactic(auto, using(std::proofs::Common::append_assoc))]
pub fn put_counts(writer: &mut Writer, counts: &TableCounts) -> Result<(), AllocError>
    requires { counts_fit counts.now ≡ true }
    ensures { Appends result writer.old writer.new (counts_tokens counts.now) }
{
    put_number(writer, "runs", counts.runs)?;
    put_number(writer, "files", counts.files)?;
    put_number(writer, "unread", counts.unread)?;
    put_entry_counts(writer, &counts.entries)
}

#[tactic(auto, using(std::proofs::Common::append_assoc))]
fn put_entry_counts(writer: &mut Writer, entries: &EntryCounts) -> Result<(), AllocError>
    requires { entry_counts_fit entries.now ≡ true }
    ensures { Appends result writer.old writer.new (entry_counts_tokens entries.now) }
{
    put_number(writer, "events", entries.accepted)?;
    put_number(writer, "refused", entries.refused)?;
    put_number(writer, "skipped", entries.skipped)?;
    put_number(writer, "queries", entries.queries)?;
    put_number(writer, "seals", entries.seals)
}

/// Writes a number that 64 bits hold, under its name.
pub fn put_number(writer: &mut Writer, name: &str, number: u128) -> Result<(), AllocError>
    requires { number < 2 ^ 64 }
    ensures { Appends result writer.old writer.new (number_tokens name.now number) }
{
    writer.key(name)?;
    writer.u64(number as u64)
}

/// Writes these numbers of a row, each under its name.
pub fn put_numbers(writer: &mut Writer, numbers: &[Number], sums: &Sums) -> Result<(), AllocError>
    requires { fit sums.now ≡ true }
    ensures { Appends result writer.old writer.new (sums_tokens numbers.now sums.now) }
{
    for number in numbers {
        put_number(writer, number.name(), sums.by(*number))?;
    }
    Ok(())
}

/// Writes each column that has a value, with it, of columns of these names.
pub fn put_key(
    writer: &mut Writer,
    columns: &[Column],
    names: &[Text],
    values: &[Option<ArgValue>],
) -> Result<(), AllocError>
    requires names { names.now ≡ map column_name columns.now }
    ensures tokens { Appends result writer.old writer.new (key_tokens columns.now values.now) }
    ensures fits { OnOk result (KeyFits columns.now values.now) }
{
    let Some((_, columns)) = columns.split_first() else {
        return Ok(());
    };
    let Some((name, names)) = names.split_first() else {
        return Ok(());
    };
    let Some((value, values)) = values.split_first() else {
        return Ok(());
    };
    if let Some(value) = value {
        put_member(writer, name, value)?;
    }
    put_key(writer, columns, names, values)
}

fn put_member(writer: &mut Writer, name: &Text, value: &ArgValue) -> Result<(), AllocError>
    ensures tokens { Appends result writer.old writer.new (key name.now ∷ value_tokens value.now) }
    ensures fits { OnOk result (IsOfArgument (Some value.now)) }
{
    writer.key(name.as_str())?;
    put_value(writer, value)
}

fn put_value(writer: &mut Writer, value: &ArgValue) -> Result<(), AllocError>
    ensures tokens { Appends result writer.old writer.new (value_tokens value.now) }
    ensures fits { OnOk result (IsOfArgument (Some value.now)) }
{
    match value {
        ArgValue::Nil => writer.null(),
        ArgValue::Flag(flag) => writer.boolean(*flag),
        ArgValue::Whole(number) => writer.i64(*number),
        ArgValue::Words(text) => writer.string(text.as_str()),
        ArgValue::Other => {
            writer.begin_object()?;
            writer.end_object()
        }
    }
}
