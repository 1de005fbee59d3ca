//! Repeated runs for machines: JSON Lines.
ghost use Rattle.std.specs.{List.list_all, Prelude.{◌≡◌, ◌++◌, [], true, false, decimal, flat_map, map, IfErr, IfOk, OnOk}};
ghost use Rattle.json.specs.Token.{number as a_number};
ghost use Rattle.span_table.specs.Columns.{column_name};
ghost use Rattle.span_comparisons.specs.{Appends, TooGreat, Repeats.{json_repeats_fit, json_repeats_of, json_values, json_values_at, key_fits, values_fit, values_tokens}};

use crate::comparing::Comparing;
use crate::json_changes::{FirstLine, heads_fit};
use crate::repeated::repeated;
use crate::sides::{Side, side_counts};
use json::Writer;
use span_event::Text;
use span_table::{Column, Key, Number, OrderedTable, Schema};
use span_table_text::JsonFault;
use span_table_text::members::{column_names, ended, put_key};
use std::alloc::{AllocError, Global};

/// What runs that were repeated on each of two sides have by a number, for machines: a table for each repetition, all of the same
/// schema. Of each key that is shown the values in the order of the repetitions.
pub fn json_repeats(
    alloc: Global,
    schema: &Schema,
    base: &[OrderedTable],
    other: &[OrderedTable],
    asked: &Comparing,
) -> Result<Vec<u8>, JsonFault>
    ensures text { IfOk result (λ text. text.items ≡ json_repeats_of asked.now.unit asked.now.by
        asked.now.shown.now schema.now base.now other.now) }
    ensures fits { OnOk result (json_repeats_fit asked.now.by asked.now.shown.now base.now
        other.now ≡ true) }
    ensures too_great { IfErr result (λ fault. fault ≡ TooGreat
        → json_repeats_fit asked.now.by asked.now.shown.now base.now other.now ≡ false) }
{
    let Comparing {
        unit,
        by,
        shown,
        ..
    } = *asked;
    let found = repeated(alloc, base, other, shown, by)?;
    let (base_counts, other_counts) = (side_counts(base)?, side_counts(other)?);
    if !heads_fit(found.same, &base_counts, &other_counts) {
        return Err(JsonFault::TooGreat);
    }
    let usual = Schema::usual(alloc, schema.of, &schema.columns)?;
    let names = column_names(alloc, &usual.columns)?;
    let first = FirstLine {
        schema: &usual,
        unit,
        names: &names,
        rows: found.keys.len() as u64,
        same: found.same as u64,
        base: base_counts,
        other: other_counts,
    };
    let mut out = first.line(Vec::new(alloc))?;
    let lines = Lines {
        columns: &usual.columns,
        names: &names,
        by,
    };
    lines.put_rows(alloc, &mut out, base, other, &found.keys)?;
    Ok(out)
}

// What the lines of keys have: values by a number, beside those of columns of these names.
#[derive(Clone, Copy)]
struct Lines<'a> {
    columns: &'a [Column],
    names: &'a [Text],
    by: Number,
}

impl<'a> Lines<'a> {
    // Appends the lines of these keys.
    fn put_rows(
        &self,
        alloc: Global,
        out: &mut Vec<u8>,
        base: &[OrderedTable],
        other: &[OrderedTable],
        keys: &[&Key],
    ) -> Result<(), JsonFault>
        requires { self.now.names.now ≡ map column_name self.now.columns.now }
        ensures text { OnOk result (out.new.items ≡ out.old.items
            ++ flat_map (json_values_at self.now.by self.now.columns.now base.now other.now)
            (map (λ key. key.now) keys.now)) }
        ensures fits { OnOk result (list_all (key_fits self.now.by base.now other.now)
            (map (λ key. key.now) keys.now) ≡ true) }
        ensures too_great { IfErr result (λ fault. fault ≡ TooGreat
            → list_all (key_fits self.now.by base.now other.now)
            (map (λ key. key.now) keys.now) ≡ false) }
    {
        let mut base = Side::of(alloc, base)?;
        let mut other = Side::of(alloc, other)?;
        let mut line = Vec::new(alloc);
        for key in keys {
            line.clear();
            line = self.with_row(line, &mut base, &mut other, key)?;
            out.extend_from_slice(&line)?;
        }
        Ok(())
    }

    // A text with the line of a key behind it.
    fn with_row(
        &self,
        out: Vec<u8>,
        base: &mut Side,
        other: &mut Side,
        key: &Key,
    ) -> Result<Vec<u8>, JsonFault>
        requires { self.now.names.now ≡ map column_name self.now.columns.now }
        ensures base { base.new.tables ≡ base.old.tables }
        ensures other { other.new.tables ≡ other.old.tables }
        ensures text { IfOk result (λ new. new.items ≡ out.items ++ json_values_at self.now.by
            self.now.columns.now base.old.tables other.old.tables key.now) }
        ensures fits { OnOk result
            (key_fits self.now.by base.old.tables other.old.tables key.now ≡ true) }
        ensures too_great { IfErr result (λ fault. fault ≡ TooGreat
            → key_fits self.now.by base.old.tables other.old.tables key.now ≡ false) }
    {
        base.look_up(key, self.by)?;
        other.look_up(key, self.by)?;
        if !all_fit(base.values()) || !all_fit(other.values()) {
            return Err(JsonFault::TooGreat);
        }
        match self.with_values(out, key, base.values(), other.values()) {
            Ok(line) => Ok(line),
            Err(_) => Err(JsonFault::Memory),
        }
    }

    #[tactic(auto, unfolding(crate::specs::Repeats::json_values), using(std::proofs::Common::append_assoc))]
    fn with_values(
        &self,
        out: Vec<u8>,
        key: &Key,
        base: &[u128],
        other: &[u128],
    ) -> Result<Vec<u8>, AllocError>
        requires names { self.now.names.now ≡ map column_name self.now.columns.now }
        requires base { values_fit base.now ≡ true }
        requires other { values_fit other.now ≡ true }
        ensures { IfOk result (λ new. new.items
            ≡ out.items ++ json_values self.now.columns.now key.now base.now other.now) }
    {
        let mut writer = Writer::new(out);
        writer.begin_object()?;
        put_key(&mut writer, self.columns, self.names, key.values())?;
        put_values(&mut writer, "values0", base)?;
        put_values(&mut writer, "values1", other)?;
        writer.end_object()?;
        ended(writer)
    }
}

fn all_fit(values: &[u128]) -> bool
    ensures { result ≡ values_fit values.now }
{
    values.iter().all(|value| *value < 1 << 64)
}

// Writes values under a name.
#[tactic(auto, using(std::proofs::Common::append_assoc))]
fn put_values(writer: &mut Writer, name: &str, values: &[u128]) -> Result<(), AllocError>
    requires { values_fit values.now ≡ true }
    ensures { Appends result writer.old writer.new (values_tokens name.now values.now) }
{
    writer.key(name)?;
    writer.begin_array()?;
    put_list(writer, values)?;
    writer.end_array()
}

fn put_list(writer: &mut Writer, values: &[u128]) -> Result<(), AllocError>
    requires { values_fit values.now ≡ true }
    ensures { Appends result writer.old writer.new
        (map (λ value. a_number (decimal value)) values.now) }
{
    for value in values {
        writer.u64(*value as u64)?;
    }
    Ok(())
}
