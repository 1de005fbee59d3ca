//! The rows of a table for machines: JSON Lines.
ghost use Rattle.std.specs.{List.list_all, Prelude.{◌≡◌, ◌<◌, ◌^◌, All, ◌++◌, true, false, map, flat_map, length, IfOk, IfErr, OnOk, IsUtf8}};
ghost use Rattle.span_table_text.specs.{column_name, counts_fit, fit, Json.{json_fits, json_head, json_line, shown_table}, Printed.{IsPrint, KeyFits}, Tokens.{Appends, head_tokens, row_tokens}, declared.json_lines.JsonFault.TheVariants.TooGreat};

use crate::members::{column_names, ended, put_counts, put_key, put_numbers, put_start};
use crate::shown::Shown;
use json::Writer;
use span_event::{Text, Unit};
use span_table::{Row, RowRef, Schema, Table, TableCounts, counts_fit, fits};
use std::alloc::{AllocError, Global};

/// Why rows were not printed for a machine.
#[derive(Clone, Copy, Debug, PartialEq, Eq)]
pub enum JsonFault {
    /// 31: memory was refused.
    Memory,
    /// 55: a sum, or a count beside the rows, has more than 64 bits.
    TooGreat,
}

impl From<AllocError> for JsonFault {
    ghost use Rattle.std.specs.Prelude.{◌≡◌};
    ghost use Rattle.span_table_text.specs.declared.json_lines.JsonFault.TheVariants.{Memory};

    ghost from_gives = { λ _ fault. fault ≡ Memory };

    fn from(_: AllocError) -> JsonFault {
        JsonFault::Memory
    }
}

/// The rows of a table in a unit that are shown, for machines.
pub fn json_table(
    alloc: Global,
    unit: Unit,
    table: &Table,
    shown: &Shown,
) -> Result<Vec<u8>, JsonFault>
    ensures print { IfOk result (λ text.
        IsPrint unit text.items (shown_table shown.now table.now)) }
    ensures too_great { IfErr result (λ fault. fault ≡ TooGreat
        → json_fits shown.now table.now ≡ false) }
{
    let Ok(rows) = shown.ordered_rows(alloc, table) else {
        return Err(JsonFault::Memory);
    };
    if !counts_fit(&table.counts()) || !all_fit(&rows) {
        return Err(JsonFault::TooGreat);
    }
    match text_of(alloc, unit, table, &rows) {
        Ok(text) => Ok(text),
        Err(_) => Err(JsonFault::Memory),
    }
}

fn all_fit(rows: &[RowRef]) -> bool
    ensures { result ≡ list_all (λ row. fit row.sums) rows.now }
{
    rows.iter().all(|shown| fits(&shown.row().sums))
}

fn text_of(alloc: Global, unit: Unit, table: &Table, rows: &[RowRef]) -> Result<Vec<u8>, AllocError>
    requires counts { counts_fit table.now.counts ≡ true }
    requires rows { list_all (λ row. fit row.sums) rows.now ≡ true }
    ensures text { IfOk result (λ text. text.items
        ≡ json_head table.now.schema unit (length rows.now) table.now.counts
        ++ flat_map (json_line table.now.schema) rows.now) }
    ensures utf8 { IfOk result (λ text. IsUtf8 text.items) }
    ensures few { OnOk result (length rows.now < 2 ^ 64) }
    ensures keys { OnOk result (All (λ row. KeyFits table.now.schema.columns row.key) rows.now) }
{
    let schema = table.schema();
    let names = column_names(alloc, &schema.columns)?;
    let head = Head {
        schema,
        unit,
        names: &names,
        rows: rows.len() as u64,
        counts: table.counts(),
    };
    let mut out = with_json_head(Vec::new(alloc), &head)?;
    // Each line is printed by itself, since behind a long text the writer of JSON first fills much room with zeros.
    let mut line = Vec::new(alloc);
    for shown in rows {
        line.clear();
        line = with_json_row(line, schema, &names, shown.row())?;
        out.extend_from_slice(&line)?;
    }
    Ok(out)
}

/// What the first line of a table says. The columns have these names.
#[derive(Drop)]
pub struct Head<'a> {
    pub schema: &'a Schema,
    pub unit: Unit,
    pub names: &'a [Text],
    pub rows: u64,
    pub counts: TableCounts,
}

/// A text with the first line of a table behind it.
#[tactic(auto, unfolding(crate::specs::Json::json_head))]
pub fn with_json_head(out: Vec<u8>, head: &Head) -> Result<Vec<u8>, AllocError>
    requires names { head.now.names.now ≡ map column_name head.now.schema.now.columns }
    requires counts { counts_fit head.now.counts ≡ true }
    ensures line { IfOk result (λ new. new.items ≡ out.items ++ json_head head.now.schema.now
        head.now.unit head.now.rows head.now.counts) }
    ensures utf8 { OnOk result (IsUtf8 (json_head head.now.schema.now head.now.unit
        head.now.rows head.now.counts)) }
{
    let mut writer = Writer::new(out);
    put_head(&mut writer, head)?;
    ended(writer)
}

#[tactic(auto, using(std::proofs::Common::append_assoc))]
fn put_head(writer: &mut Writer, head: &Head) -> Result<(), AllocError>
    requires names { head.now.names.now ≡ map column_name head.now.schema.now.columns }
    requires counts { counts_fit head.now.counts ≡ true }
    ensures { Appends result writer.old writer.new (head_tokens head.now.schema.now
        head.now.unit head.now.rows head.now.counts) }
{
    put_start(writer, head.schema, head.unit, head.names)?;
    writer.key("rows")?;
    writer.u64(head.rows)?;
    put_counts(writer, &head.counts)?;
    writer.end_object()
}

/// A text with the line of a row behind it, of a table of this schema, whose columns have these names.
#[tactic(auto, unfolding(crate::specs::Json::json_line))]
pub fn with_json_row(
    out: Vec<u8>,
    schema: &Schema,
    names: &[Text],
    row: &Row,
) -> Result<Vec<u8>, AllocError>
    requires names { names.now ≡ map column_name schema.now.columns }
    requires fits { fit row.now.sums ≡ true }
    ensures line { IfOk result (λ new. new.items ≡ out.items ++ json_line schema.now row.now) }
    ensures utf8 { OnOk result (IsUtf8 (json_line schema.now row.now)) }
    ensures key_fits { OnOk result (KeyFits schema.now.columns row.now.key) }
{
    let mut writer = Writer::new(out);
    put_row(&mut writer, schema, names, row)?;
    ended(writer)
}

#[tactic(auto, using(std::proofs::Common::append_assoc))]
fn put_row(
    writer: &mut Writer,
    schema: &Schema,
    names: &[Text],
    row: &Row,
) -> Result<(), AllocError>
    requires names { names.now ≡ map column_name schema.now.columns }
    requires fits { fit row.now.sums ≡ true }
    ensures tokens { Appends result writer.old writer.new (row_tokens schema.now row.now) }
    ensures key_fits { OnOk result (KeyFits schema.now.columns row.now.key) }
{
    writer.begin_object()?;
    put_key(writer, &schema.columns, names, row.key.values())?;
    put_numbers(writer, &schema.numbers, &row.sums)?;
    writer.end_object()
}
