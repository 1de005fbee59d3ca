//! What changed between two tables for machines: JSON Lines.
ghost use Rattle.std.specs.{List.list_all, Prelude.{◌≡◌, ◌<◌, ◌^◌, ◌++◌, ◌∷◌, [], true, false, codes, flat_map, length, map, IfOk, IfErr, OnOk}};
ghost use Rattle.json.specs.Token.{end_object};
ghost use Rattle.span_table.specs.Columns.{column_name};
ghost use Rattle.span_comparisons.specs.{Appends, TooGreat, counts_fit, fit, number_name, number_tokens, start_tokens, JsonChanges.{both_counts_tokens, both_fit, both_tokens, heads_fit, json_change, json_changes_fit, json_comparison_of, json_heads, side_tokens}};

use crate::changes::{Both, Changed, ComparedTables, differences};
use crate::comparing::Comparing;
use json::Writer;
use span_event::{Text, Unit};
use span_table::{Number, OrderedTable, Schema, TableCounts, counts_fit, fits};
use span_table_text::JsonFault;
use span_table_text::members::{column_names, ended, put_counts, put_key, put_number, put_start};
use std::alloc::{AllocError, Global};

/// What changed between two tables of the same schema, for machines: of the keys that are shown those of which a number differs, the
/// greatest change of the number that is asked for first.
pub fn json_comparison(
    alloc: Global,
    base: &OrderedTable,
    other: &OrderedTable,
    asked: &Comparing,
) -> Result<Vec<u8>, JsonFault>
    ensures text { IfOk result (λ text. text.items ≡ json_comparison_of asked.now.unit
        asked.now.by asked.now.shown.now base.now other.now) }
    ensures fits { OnOk result (json_changes_fit asked.now.by asked.now.shown.now base.now
        other.now ≡ true) }
    ensures too_great { IfErr result (λ fault. fault ≡ TooGreat
        → json_changes_fit asked.now.by asked.now.shown.now base.now other.now ≡ false) }
{
    let Comparing {
        unit,
        by,
        shown,
        ..
    } = *asked;
    let numbers = &other.schema().numbers;
    let Ok(found) = differences(alloc, numbers, base.rows(), other.rows(), shown, by) else {
        return Err(JsonFault::Memory);
    };
    if !heads_fit(found.same, &base.counts(), &other.counts()) || !all_fit(&found.changes) {
        return Err(JsonFault::TooGreat);
    }
    match text_of(alloc, unit, base, other, &found) {
        Ok(text) => Ok(text),
        Err(_) => Err(JsonFault::Memory),
    }
}

/// Whether 64 bits hold the numbers of a first line.
pub(crate) fn heads_fit(same: u128, base: &TableCounts, other: &TableCounts) -> bool
    ensures { result ≡ heads_fit same base.now other.now }
{
    same < 1 << 64 && counts_fit(base) && counts_fit(other)
}

fn all_fit(changes: &[Changed]) -> bool
    ensures { result ≡ list_all both_fit changes.now }
{
    changes.iter().all(|change| fits(&change.both.base) && fits(&change.both.other))
}

fn text_of(
    alloc: Global,
    unit: Unit,
    base: &OrderedTable,
    other: &OrderedTable,
    found: &ComparedTables,
) -> Result<Vec<u8>, AllocError>
    requires heads { heads_fit found.now.same base.now.counts other.now.counts ≡ true }
    requires changes { list_all both_fit found.now.changes.items ≡ true }
    ensures { IfOk result (λ text. text.items ≡ json_heads other.now.schema unit
        (length found.now.changes.items) found.now.same base.now.counts other.now.counts
        ++ flat_map (json_change other.now.schema) found.now.changes.items) }
{
    let schema = other.schema();
    let names = column_names(alloc, &schema.columns)?;
    let first = FirstLine {
        schema,
        unit,
        names: &names,
        rows: found.changes.len() as u64,
        same: found.same as u64,
        base: base.counts(),
        other: other.counts(),
    };
    let mut out = first.line(Vec::new(alloc))?;
    // Each line is printed by itself, since behind a long text the writer of JSON first fills much room with zeros.
    let mut line = Vec::new(alloc);
    for change in &found.changes {
        line.clear();
        line = first.change(alloc, line, change)?;
        out.extend_from_slice(&line)?;
    }
    Ok(out)
}

/// What the first line of a comparison says. The columns have these names.
#[derive(Drop)]
pub(crate) struct FirstLine<'a> {
    pub(crate) schema: &'a Schema,
    pub(crate) unit: Unit,
    pub(crate) names: &'a [Text],
    pub(crate) rows: u64,
    pub(crate) same: u64,
    pub(crate) base: TableCounts,
    pub(crate) other: TableCounts,
}

impl<'a> FirstLine<'a> {
    /// A text with the line behind it.
    #[tactic(auto, unfolding(crate::specs::JsonChanges::json_heads))]
    pub(crate) fn line(&self, out: Vec<u8>) -> Result<Vec<u8>, AllocError>
        requires names { self.now.names.now ≡ map column_name self.now.schema.now.columns }
        requires base { counts_fit self.now.base ≡ true }
        requires other { counts_fit self.now.other ≡ true }
        ensures { IfOk result (λ new. new.items ≡ out.items ++ json_heads self.now.schema.now
            self.now.unit self.now.rows self.now.same self.now.base self.now.other) }
    {
        let mut writer = Writer::new(out);
        self.put(&mut writer)?;
        ended(writer)
    }

    fn put(&self, writer: &mut Writer) -> Result<(), AllocError>
        requires names { self.now.names.now ≡ map column_name self.now.schema.now.columns }
        requires base { counts_fit self.now.base ≡ true }
        requires other { counts_fit self.now.other ≡ true }
        ensures { Appends result writer.old writer.new (start_tokens self.now.schema.now
            self.now.unit (both_counts_tokens self.now.rows self.now.same self.now.base
            self.now.other ++ end_object ∷ [])) }
    {
        put_start(writer, self.schema, self.unit, self.names)?;
        self.put_numbers(writer)?;
        writer.end_object()
    }

    fn put_numbers(&self, writer: &mut Writer) -> Result<(), AllocError>
        requires base { counts_fit self.now.base ≡ true }
        requires other { counts_fit self.now.other ≡ true }
        ensures { Appends result writer.old writer.new (both_counts_tokens self.now.rows
            self.now.same self.now.base self.now.other) }
    {
        writer.key("rows")?;
        writer.u64(self.rows)?;
        writer.key("same")?;
        writer.u64(self.same)?;
        put_side(writer, "base", &self.base)?;
        put_side(writer, "other", &self.other)
    }

    // A text with the line of a change behind it.
    #[tactic(auto, unfolding(crate::specs::JsonChanges::json_change), using(std::proofs::Common::append_assoc))]
    fn change(&self, alloc: Global, out: Vec<u8>, change: &Changed) -> Result<Vec<u8>, AllocError>
        requires names { self.now.names.now ≡ map column_name self.now.schema.now.columns }
        requires fits { both_fit change.now ≡ true }
        ensures { IfOk result (λ new. new.items
            ≡ out.items ++ json_change self.now.schema.now change.now) }
    {
        let (schema, names) = (self.schema, self.names);
        let mut writer = Writer::new(out);
        writer.begin_object()?;
        put_key(&mut writer, &schema.columns, names, change.key.values())?;
        put_both(alloc, &mut writer, &schema.numbers, &change.both)?;
        writer.end_object()?;
        ended(writer)
    }
}

fn put_side(writer: &mut Writer, name: &str, counts: &TableCounts) -> Result<(), AllocError>
    requires { counts_fit counts.now ≡ true }
    ensures { Appends result writer.old writer.new (side_tokens name.now counts.now) }
{
    writer.key(name)?;
    writer.begin_object()?;
    put_counts(writer, counts)?;
    writer.end_object()
}

// Writes these numbers of both sides.
fn put_both(
    alloc: Global,
    writer: &mut Writer,
    numbers: &[Number],
    both: &Both,
) -> Result<(), AllocError>
    requires base { fit both.now.base ≡ true }
    requires other { fit both.now.other ≡ true }
    ensures { Appends result writer.old writer.new (both_tokens numbers.now both.now) }
{
    for number in numbers {
        let (base, other) = (both.base.by(*number), both.other.by(*number));
        put_sides(alloc, writer, *number, base, other)?;
    }
    Ok(())
}

fn put_sides(
    alloc: Global,
    writer: &mut Writer,
    number: Number,
    base: u128,
    other: u128,
) -> Result<(), AllocError>
    requires base { base < 2 ^ 64 }
    requires other { other < 2 ^ 64 }
    ensures { Appends result writer.old writer.new
        (number_tokens (number_name number ++ codes "0") base
        ++ number_tokens (number_name number ++ codes "1") other) }
{
    let name = number.name();
    let (first, second) = (format!(in alloc; "{name}0")?, format!(in alloc; "{name}1")?);
    put_number(writer, &first, base)?;
    put_number(writer, &second, other)
}
