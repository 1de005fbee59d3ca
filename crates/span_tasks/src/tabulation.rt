//! What is printed of tables.
ghost use Rattle.std.specs.Prelude.{◌≡◌, ◌≤◌, ◌↔◌, ◌∷◌, ◌++◌, [], true, false, IsTrue, IfErr, IfOk, IfSome, length};
ghost use Rattle.span_request.specs.declared.tasks.TableText.TheVariants.{Changes as OfChanges, Repetitions as OfRepetitions, Table as OfTable};
ghost use Rattle.span_runs.specs.declared.stop.Halt.TheVariants.{Memory};
ghost use Rattle.span_tasks.specs.{IsHint, OfStop, SpanTable, TooGreatFault, number_of, run_line, Outcome.PrintsOrStops, Tabulations.{AreFew, PrintsText, StopsTabulating, StopsTabulation, Tabulates, says_runs, warned_of_both}, Warnings.warned_of, Texts.{IsTableText, TableExceeds, changes_fit, changes_text}};

use crate::outcome::Print;
use crate::place::Place;
use crate::side::Side;
use crate::sides::{Sides, Wanted};
use crate::texts::TableTexts;
use crate::warnings::Tabled;
use span_event::{Fault, Unit};
use span_faults::one_base;
use span_request::{Changes, ComparisonForm, Items, Repetitions, TableForm, TableText, Tabulation};
use span_runs::{Halt, Listed, Name, Source};
use span_table::Table;
use std::alloc::Global;
use std::random::RandomSource;
use std::sync::Wait;
use std::thread::Threads;

// The most repetitions of a side.
const MOST_REPETITIONS: usize = 64;

impl<'a, R: Threads + Wait + RandomSource + Sync, S: Source + Sync> Place<'a, R, S> {
    /// What is printed of the tables of these files, and of those of a base, if there is one.
    pub(crate) fn print_tables(
        &self,
        task: &Tabulation,
        base: &Listed,
        files: &Listed,
    ) -> Result<Print, Halt>
        ensures { PrintsOrStops
            (Tabulates (S.bytes self.now.source.now) task.now base.now files.now)
            (StopsTabulating (S.bytes self.now.source.now) task.now base.now files.now) result }
    {
        match &task.text {
            TableText::Table(form) => self.print_table(task, *form, base, files),
            TableText::Changes(asked) => self.print_changes(task, asked, base, files),
            TableText::Repetitions(asked) => self.print_repetitions(task, asked, base, files),
        }
    }

    fn print_table(
        &self,
        task: &Tabulation,
        form: TableForm,
        base: &Listed,
        files: &Listed,
    ) -> Result<Print, Halt>
        ensures { PrintsOrStops (PrintsText (S.bytes self.now.source.now) task.now.items
            task.now.options base.now files.now (OfTable form))
            (StopsTabulation (S.bytes self.now.source.now) task.now.items task.now.options
            base.now files.now (OfTable form)) result }
    {
        self.begin(task.items, files.names.len());
        let wanted = Wanted {
            items: task.items,
            jobs: task.jobs,
            sort: matches!(form, TableForm::Json),
            options: &task.options,
            each: false,
        };
        let side = match self.one_side(wanted, files) {
            Ok(side) => side,
            Err(halt) => return Err(halt),
        };
        let text = match text_of_side(self.alloc, task, form, &side) {
            Ok(text) => text,
            Err(halt) => return Err(halt),
        };
        match self.print_of_side(task.items, side, text) {
            Ok(print) => Ok(print),
            Err(halt) => Err(halt),
        }
    }

    fn print_changes(
        &self,
        task: &Tabulation,
        asked: &Changes,
        base: &Listed,
        files: &Listed,
    ) -> Result<Print, Halt>
        ensures { PrintsOrStops (PrintsText (S.bytes self.now.source.now) task.now.items
            task.now.options base.now files.now (OfChanges asked.now))
            (StopsTabulation (S.bytes self.now.source.now) task.now.items task.now.options
            base.now files.now (OfChanges asked.now)) result }
    {
        self.begin(
            task.items,
            base.names.len().saturating_add(files.names.len()),
        );
        let wanted = Wanted {
            items: task.items,
            jobs: task.jobs,
            sort: true,
            options: &task.options,
            each: false,
        };
        let sides = match self.both_sides(wanted, base, files) {
            Ok(sides) => sides,
            Err(halt) => return Err(halt),
        };
        let text = match text_of_changes(self.alloc, task, asked.form, &sides) {
            Ok(text) => text,
            Err(halt) => return Err(halt),
        };
        match self.print_of_sides(task.items, sides, text, self.base_hint(base, files)) {
            Ok(print) => Ok(print),
            Err(halt) => Err(halt),
        }
    }

    fn print_repetitions(
        &self,
        task: &Tabulation,
        asked: &Repetitions,
        base: &Listed,
        files: &Listed,
    ) -> Result<Print, Halt>
        ensures { PrintsOrStops (PrintsText (S.bytes self.now.source.now) task.now.items
            task.now.options base.now files.now (OfRepetitions asked.now))
            (StopsTabulation (S.bytes self.now.source.now) task.now.items task.now.options
            base.now files.now (OfRepetitions asked.now)) result }
    {
        if !are_few(&base.names, &files.names) {
            return Err(Halt::of_run(self.alloc, Fault::FileCount.code()));
        }
        self.begin(
            task.items,
            base.names.len().saturating_add(files.names.len()),
        );
        let wanted = Wanted {
            items: task.items,
            jobs: task.jobs,
            sort: true,
            options: &task.options,
            each: true,
        };
        let sides = match self.both_sides(wanted, base, files) {
            Ok(sides) => sides,
            Err(halt) => return Err(halt),
        };
        let texts = texts_of(self.alloc, task, sides.base.unit);
        let text = match texts.repetitions(asked, &sides.base, &sides.other) {
            Ok(text) => text,
            Err(halt) => return Err(halt),
        };
        match self.print_of_sides(task.items, sides, text, self.base_hint(base, files)) {
            Ok(print) => Ok(print),
            Err(halt) => Err(halt),
        }
    }

    // So many files are read, each for itself.
    fn begin(&self, items: Items, files: usize) {
        match items {
            Items::Together(_) => {}
            _ => self.source.begin_apart(files as u64),
        }
    }

    // A text of one side, with what is said of it behind.
    fn print_of_side(&self, items: Items, side: Side, text: Vec<u8>) -> Result<Print, Halt>
        requires { IsHint side.hints.items }
        ensures text { IfOk result (λ print. print.text ≡ text) }
        ensures lines { IfOk result (λ print. print.lines.items ≡ side.said.lines.items) }
        ensures warnings { IfOk result (λ print. print.warnings.items
            ≡ warned_of items side.schema.columns side.tables.items side.said.warnings.items) }
        ensures hints { IfOk result (λ print. IsHint print.hints.items) }
        ensures memory { IfErr result (λ halt. halt ≡ Memory) }
    {
        let tabled = Tabled {
            columns: &side.schema.columns,
            tables: &side.tables,
            more: &[],
        };
        let Ok(warnings) = tabled.warned(self.alloc, items, &side.said.warnings) else {
            return Err(Halt::Memory);
        };
        let Side {
            tables,
            said,
            hints,
            ..
        } = side;
        self.let_go(tables);
        Ok(Print {
            text,
            lines: said.lines,
            warnings,
            hints,
        })
    }

    // A text of two sides, with what is said of both behind it.
    fn print_of_sides(
        &self,
        items: Items,
        sides: Sides,
        text: Vec<u8>,
        hint: Vec<u8>,
    ) -> Result<Print, Halt>
        requires base { IsHint sides.base.hints.items }
        requires other { IsHint sides.other.hints.items }
        requires hint { IsHint hint.items }
        ensures text { IfOk result (λ print. print.text ≡ text) }
        ensures lines { IfOk result (λ print. print.lines.items
            ≡ sides.base.said.lines.items ++ sides.other.said.lines.items) }
        ensures warnings { IfOk result (λ print. print.warnings.items
            ≡ warned_of_both items sides.base sides.other) }
        ensures hints { IfOk result (λ print. IsHint print.hints.items) }
        ensures memory { IfErr result (λ halt. halt ≡ Memory) }
    {
        let Sides { base, other } = sides;
        let Side {
            schema,
            tables,
            said,
            hints,
            ..
        } = base;
        let Ok(said) = said.with(other.said) else {
            return Err(Halt::Memory);
        };
        let tabled = Tabled {
            columns: &schema.columns,
            tables: &tables,
            more: &other.tables,
        };
        let Ok(warnings) = tabled.warned(self.alloc, items, &said.warnings) else {
            return Err(Halt::Memory);
        };
        self.let_go(tables);
        self.let_go(other.tables);
        Ok(Print {
            text,
            lines: said.lines,
            warnings,
            hints: with_hints(with_hints(hints, &other.hints), &hint),
        })
    }

    // Where one file is compared with several, that may not be what was meant.
    fn base_hint(&self, base: &Listed, files: &Listed) -> Vec<u8>
        ensures { IsHint result.items }
    {
        let is_odd = base.names.len() == 1 && base.cut == 0 && files.names.len() > 1;
        if !is_odd || !self.takes_hints {
            return Vec::new(self.alloc);
        }
        match one_base(self.alloc) {
            Ok(hint) => hint.into_bytes(),
            Err(_) => Vec::new(self.alloc),
        }
    }
}

// Hints for which there is no memory are left out.
fn with_hints(hints: Vec<u8>, more: &[u8]) -> Vec<u8>
    requires mine { IsHint hints.items }
    requires its { IsHint more.now }
    ensures { IsHint result.items }
{
    let mut both = hints;
    let _ = both.extend_from_slice(more);
    both
}

// The one table of a side.
fn only_table(side: &Side) -> Option<&Table>
    ensures { IfSome result (λ table. side.now.tables.items ≡ table.now ∷ []) }
{
    match side.tables.as_slice() {
        [table] => Some(table),
        _ => None,
    }
}

// How the tables of a task are printed, whose times are in this unit.
fn texts_of(alloc: Global, task: &Tabulation, unit: Unit) -> TableTexts<'_>
    ensures unit { result.unit ≡ unit }
    ensures runs { result.says_runs ≡ says_runs task.now.items }
    ensures options { result.options.now ≡ task.now.options }
{
    let says_runs = match task.items {
        Items::Together(_) => false,
        _ => true,
    };
    TableTexts {
        alloc,
        unit,
        says_runs,
        options: &task.options,
    }
}

fn text_of_side(
    alloc: Global,
    task: &Tabulation,
    form: TableForm,
    side: &Side,
) -> Result<Vec<u8>, Halt>
    ensures text { IfOk result (λ text. (table : SpanTable)
        × (side.now.tables.items ≡ table ∷ []) × IsTableText side.now.unit form
        task.now.options (says_runs task.now.items) table text.items) }
    ensures stop { IfErr result (OfStop (λ lines. (table : SpanTable)
        × (side.now.tables.items ≡ table ∷ []) × TableExceeds form task.now.options.shown table
        × (lines ≡ run_line (number_of TooGreatFault)))) }
{
    let Some(table) = only_table(side) else {
        return Err(Halt::Memory);
    };
    texts_of(alloc, task, side.unit).table(form, table)
}

fn text_of_changes(
    alloc: Global,
    task: &Tabulation,
    form: ComparisonForm,
    sides: &Sides,
) -> Result<Vec<u8>, Halt>
    ensures text { IfOk result (λ text. (base other : SpanTable)
        × (sides.now.base.tables.items ≡ base ∷ []) × (sides.now.other.tables.items ≡ other ∷ [])
        × (changes_fit form task.now.options base other ≡ true)
        × (text.items ≡ changes_text sides.now.base.unit form task.now.options
        (says_runs task.now.items) base other)) }
    ensures stop { IfErr result (OfStop (λ lines. (base other : SpanTable)
        × (sides.now.base.tables.items ≡ base ∷ []) × (sides.now.other.tables.items ≡ other ∷ [])
        × (changes_fit form task.now.options base other ≡ false)
        × (lines ≡ run_line (number_of TooGreatFault)))) }
{
    let (Some(base), Some(other)) = (only_table(&sides.base), only_table(&sides.other)) else {
        return Err(Halt::Memory);
    };
    texts_of(alloc, task, sides.base.unit).changes(form, base, other)
}

// Whether each side has a repetition, and not too many.
fn are_few(base: &[Name], names: &[Name]) -> bool
    ensures { IsTrue result ↔ AreFew base.now names.now }
{
    !base.is_empty() && base.len() <= MOST_REPETITIONS && names.len() <= MOST_REPETITIONS
}
