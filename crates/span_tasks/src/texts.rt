//! The texts of tables.
ghost use Rattle.std.specs.Prelude.{◌≡◌, true, false, string_bytes, IfOk, IfErr};
ghost use Rattle.span_page.specs.declared.fault.PageFault.TheVariants.{TooLarge};
ghost use Rattle.span_table_text.specs.declared.json_lines.JsonFault.TheVariants.{TooGreat};
ghost use Rattle.span_tasks.specs.{OfStop, PageTooLargeFault, TooGreatFault, leading_number, number_of, run_line, Texts.{IsTableText, TableExceeds, changes_fit, changes_text, repeats_fit, repeats_text}};

use crate::side::Side;
use span_comparisons::{Comparing, comparison, json_comparison, json_repeats, repeats};
use span_event::{Fault, Unit};
use span_page::PageFault;
use span_request::{ComparisonForm, RepeatsForm, Repetitions, TableForm, TableOptions};
use span_runs::Halt;
use span_table::{OrderedTable, Schema, Table};
use span_table_text::{JsonFault, json_table, ranking};
use std::alloc::{AllocError, Global};

/// How tables are printed: their times are in this unit, their heads say how many runs there are or don't, and what is shown of them is
/// what is asked for.
#[derive(Clone, Copy)]
pub(crate) struct TableTexts<'a> {
    pub(crate) alloc: Global,
    pub(crate) unit: Unit,
    pub(crate) says_runs: bool,
    pub(crate) options: &'a TableOptions,
}

impl<'a> TableTexts<'a> {
    /// The text of a table.
    pub(crate) fn table(&self, form: TableForm, table: &Table) -> Result<Vec<u8>, Halt>
        ensures text { IfOk result (λ text. IsTableText self.now.unit form self.now.options.now
            self.now.says_runs table.now text.items) }
        ensures stop { IfErr result (OfStop (λ lines. TableExceeds form self.now.options.now.shown table.now
            × (lines ≡ run_line (number_of TooGreatFault)))) }
    {
        let (alloc, unit, options) = (self.alloc, self.unit, self.options);
        let shown = &options.shown;
        match form {
            TableForm::Ranking { most } => {
                let by = options.numbers.leading(table.schema());
                match ranking(alloc, unit, table, shown, most, by, self.says_runs) {
                    Ok(text) => Ok(text),
                    Err(_) => Err(Halt::Memory),
                }
            }
            TableForm::Json => match json_table(alloc, unit, table, shown) {
                Ok(text) => Ok(text),
                Err(fault) => Err(halt_of_text(alloc, fault)),
            },
        }
    }

    /// What changed between two tables.
    pub(crate) fn changes(
        &self,
        form: ComparisonForm,
        base: &Table,
        other: &Table,
    ) -> Result<Vec<u8>, Halt>
        ensures text { IfOk result (λ text. text.items ≡ changes_text self.now.unit form
            self.now.options.now self.now.says_runs base.now other.now) }
        ensures fits { IfOk result (λ text.
            changes_fit form self.now.options.now base.now other.now ≡ true) }
        ensures stop { IfErr result (OfStop (λ lines.
            (changes_fit form self.now.options.now base.now other.now ≡ false)
            × (lines ≡ run_line (number_of TooGreatFault)))) }
    {
        let Ok(base) = OrderedTable::of(self.alloc, base) else {
            return Err(Halt::Memory);
        };
        let Ok(other) = OrderedTable::of(self.alloc, other) else {
            return Err(Halt::Memory);
        };
        self.ordered_changes(form, &base, &other)
    }

    fn ordered_changes(
        &self,
        form: ComparisonForm,
        base: &OrderedTable,
        other: &OrderedTable,
    ) -> Result<Vec<u8>, Halt>
        ensures text { IfOk result (λ text. text.items ≡ changes_text self.now.unit form
            self.now.options.now self.now.says_runs base.now other.now) }
        ensures fits { IfOk result (λ text.
            changes_fit form self.now.options.now base.now other.now ≡ true) }
        ensures stop { IfErr result (OfStop (λ lines.
            (changes_fit form self.now.options.now base.now other.now ≡ false)
            × (lines ≡ run_line (number_of TooGreatFault)))) }
    {
        match form {
            ComparisonForm::Text { most } => {
                let asked = self.comparing(other.schema(), most);
                match comparison(self.alloc, base, other, &asked, self.says_runs) {
                    Ok(text) => Ok(text),
                    Err(_) => Err(Halt::Memory),
                }
            }
            ComparisonForm::Json => {
                let asked = self.comparing(other.schema(), None);
                match json_comparison(self.alloc, base, other, &asked) {
                    Ok(text) => Ok(text),
                    Err(fault) => Err(halt_of_text(self.alloc, fault)),
                }
            }
        }
    }

    /// How the numbers of the tables of two sides are spread.
    pub(crate) fn repetitions(
        &self,
        asked: &Repetitions,
        base: &Side,
        other: &Side,
    ) -> Result<Vec<u8>, Halt>
        ensures text { IfOk result (λ text. text.items
            ≡ repeats_text self.now.unit base.now.schema asked.now.form self.now.options.now base.now.tables.items other.now.tables.items) }
        ensures fits { IfOk result (λ text. repeats_fit base.now.schema asked.now.form
            self.now.options.now base.now.tables.items other.now.tables.items ≡ true) }
        ensures stop { IfErr result (OfStop (λ lines.
            (repeats_fit base.now.schema asked.now.form self.now.options.now
            base.now.tables.items other.now.tables.items ≡ false)
            × (lines ≡ run_line (number_of TooGreatFault)))) }
    {
        let Ok(tables) = all_ordered(self.alloc, &base.tables) else {
            return Err(Halt::Memory);
        };
        let Ok(others) = all_ordered(self.alloc, &other.tables) else {
            return Err(Halt::Memory);
        };
        self.spreads(asked.form, &base.schema, &tables, &others)
    }

    fn spreads(
        &self,
        form: RepeatsForm,
        schema: &Schema,
        base: &[OrderedTable],
        other: &[OrderedTable],
    ) -> Result<Vec<u8>, Halt>
        ensures text { IfOk result (λ text. text.items ≡ repeats_text self.now.unit schema.now form
            self.now.options.now base.now other.now) }
        ensures fits { IfOk result (λ text.
            repeats_fit schema.now form self.now.options.now base.now other.now ≡ true) }
        ensures stop { IfErr result (OfStop (λ lines.
            (repeats_fit schema.now form self.now.options.now base.now other.now ≡ false)
            × (lines ≡ run_line (number_of TooGreatFault)))) }
    {
        let alloc = self.alloc;
        match form {
            RepeatsForm::Text { most } => {
                let asked = self.comparing(schema, most);
                match repeats(alloc, &schema.columns, base, other, &asked) {
                    Ok(text) => Ok(text),
                    Err(_) => Err(Halt::Memory),
                }
            }
            RepeatsForm::Json => {
                let asked = self.comparing(schema, None);
                match json_repeats(alloc, schema, base, other, &asked) {
                    Ok(text) => Ok(text),
                    Err(fault) => Err(halt_of_text(alloc, fault)),
                }
            }
        }
    }

    // How tables of this schema are compared.
    fn comparing(&self, schema: &Schema, most: Option<u32>) -> Comparing<'a>
        ensures unit { result.unit ≡ self.now.unit }
        ensures by { result.by ≡ leading_number self.now.options.now.numbers schema.now }
        ensures shown { result.shown.now ≡ self.now.options.now.shown }
        ensures most { result.most ≡ most }
    {
        Comparing {
            unit: self.unit,
            by: self.options.numbers.leading(schema),
            shown: &self.options.shown,
            most,
        }
    }
}

// Tables with their rows in order.
fn all_ordered(alloc: Global, tables: &[Table]) -> Result<Vec<OrderedTable<'_>>, AllocError>
    ensures { IfOk result (λ ordered. ordered.items ≡ tables.now) }
{
    let mut ordered = Vec::with_capacity(alloc, tables.len())?;
    for table in tables {
        ordered.push(OrderedTable::of(alloc, table)?)?;
    }
    Ok(ordered)
}

// A text for other programs was not made.
fn halt_of_text(alloc: Global, fault: JsonFault) -> Halt
    ensures { OfStop (λ lines. (fault ≡ TooGreat)
        × (lines ≡ run_line (number_of TooGreatFault))) result }
{
    match fault {
        JsonFault::Memory => Halt::Memory,
        JsonFault::TooGreat => Halt::of_run(alloc, Fault::TooGreat.code()),
    }
}

/// A page was not made.
pub(crate) fn halt_of_page(alloc: Global, fault: PageFault) -> Halt
    ensures { OfStop (λ lines. (fault ≡ TooLarge)
        × (lines ≡ run_line (number_of PageTooLargeFault))) result }
{
    match fault {
        PageFault::Memory => Halt::Memory,
        PageFault::TooLarge => Halt::of_run(alloc, Fault::PageTooLarge.code()),
    }
}

/// The text of a table as one that is known to be UTF-8.
pub(crate) fn string_of(text: Vec<u8>) -> Result<String, AllocError>
    ensures { IfOk result (λ string. string_bytes string ≡ text.items) }
{
    // Names and values are text, and so is the rest, so this can't fail.
    match String::from_utf8(text) {
        Ok(string) => Ok(string),
        Err(_) => Err(AllocError),
    }
}
