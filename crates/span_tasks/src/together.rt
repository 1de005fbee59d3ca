//! What is named, collected as one run, and what is printed of it.
ghost use Rattle.std.specs.Prelude.{◌≡◌, length, Contains, IfErr, IfOk};
ghost use Rattle.span_tasks.specs.{Name as TheName, AreInputs, IsHint, OfStop, StacksFault as StacksTooLarge, number_of, fault_text, printed, run_line, run_code, unread_line, Outcome.PrintsOrStops, narrowed, run_of_files, table_of_run, Summed.summed_of, Together.{Collects, EndsWell, Exceeds, Fits, StopsCollecting, StopsTogether, text_of, warned_if, warned_of_view}};
ghost use Rattle.span_runs.specs.declared.stop.Halt.TheVariants.{Memory as OutOfMemory};
ghost use Rattle.span_report.specs.declared.stacks.fault.StacksFault.TheVariants.{TooLarge};
ghost use Rattle.span_request.specs.declared.views.View.TheVariants.{Page as OfPage};

use crate::outcome::Print;
use crate::place::Place;
use crate::summed::summed_of;
use crate::texts::{TableTexts, halt_of_page, string_of};
use crate::warnings::warned_of_page;
use span_collect::refusals::{refusals, warnings_of};
use span_collect::{Collected, Input, RunError, Settings, collect_to_ledger};
use span_event::{Fault, Unit};
use span_faults::{fault_text, hints_of, many_files, warning_lines};
use span_names::HashKeys;
use span_narrowing::narrowed;
use span_page::page;
use span_report::report;
use span_report::stacks::{StacksFault, folded};
use span_request::{PageView, TableForm, TableOptions, View};
use span_runs::{Halt, Name, Source, Stop, read_input, table_of_run};
use span_table::Table;
use std::alloc::{AllocError, Global};
use std::random::RandomSource;
use std::sync::Wait;
use std::thread::Threads;

/// What was collected of what is named, as one run, with the lines and hints that follow what is printed of it.
#[derive(Drop)]
pub(crate) struct TogetherRun {
    pub(crate) inputs: Vec<Input>,
    pub(crate) collected: Collected,
    pub(crate) lines: Vec<u8>,
    pub(crate) hints: Vec<u8>,
}

/// The text of a view, and what is warned of behind it.
#[derive(Drop)]
struct Made {
    text: Vec<u8>,
    warnings: Vec<u8>,
}

impl<'a, R: Threads + Wait + RandomSource + Sync, S: Source + Sync> Place<'a, R, S> {
    /// What is printed of what is named, as one run.
    pub(crate) fn print_view(
        &self,
        settings: &Settings,
        view: &View,
        names: &[Name],
    ) -> Result<Print, Halt>
        ensures { PrintsOrStops
            (Collects (S.bytes self.now.source.now) names.now settings.now view.now)
            (StopsCollecting (S.bytes self.now.source.now) names.now settings.now view.now) result }
    {
        let run = match self.collect_together(settings, names) {
            Ok(run) => run,
            Err(halt) => return Err(halt),
        };
        let TogetherRun {
            inputs,
            collected,
            lines,
            hints,
        } = run;
        let made = self.made_of_view(settings.format.unit, view, inputs, &collected);
        self.let_go(collected);
        match made {
            Ok(Made { text, warnings }) => Ok(Print {
                text,
                lines,
                warnings,
                hints,
            }),
            Err(halt) => Err(halt),
        }
    }

    /// Reads what is named, and collects it as one run. One that ends with 2 stops.
    pub(crate) fn collect_together(
        &self,
        settings: &Settings,
        names: &[Name],
    ) -> Result<TogetherRun, Halt>
        ensures run { IfOk result (EndsWell (S.bytes self.now.source.now) names.now settings.now) }
        ensures stop { IfErr result
            (OfStop (StopsTogether (S.bytes self.now.source.now) names.now settings.now)) }
    {
        let inputs = match self.read_inputs(settings, names) {
            Ok(inputs) => inputs,
            Err(halt) => return Err(halt),
        };
        self.source.end();
        let collected = match collect_to_ledger(self.rt, self.alloc, &inputs, &[], settings) {
            Ok(collected) => collected,
            Err(error) => return Err(refused(self.alloc, error)),
        };
        let Ok(lines) = fault_text(self.alloc, &inputs, &collected.end) else {
            return Err(Halt::Memory);
        };
        let lines = lines.into_bytes();
        let hints = self.hints_of_run(settings.format.unit, &inputs, &collected);
        if collected.end.status == 2 {
            return Err(Halt::Stopped(Stop { lines, hints }));
        }
        Ok(TogetherRun {
            inputs,
            collected,
            lines,
            hints,
        })
    }

    // What is named, as it is read. The first that cannot be read decides.
    fn read_inputs(&self, settings: &Settings, names: &[Name]) -> Result<Vec<Input>, Halt>
        ensures read { IfOk result (λ inputs.
            AreInputs (S.bytes self.now.source.now) settings.now names.now inputs.items) }
        ensures stop { IfErr result (OfStop (λ lines. (name : TheName)
            × Contains names.now name × (lines ≡ unread_line (printed name)))) }
    {
        let Ok(mut inputs) = Vec::with_capacity(self.alloc, names.len()) else {
            return Err(Halt::Memory);
        };
        for name in names {
            let input = match read_input(self.alloc, self.source, name, settings) {
                Ok(input) => input,
                Err(halt) => return Err(halt),
            };
            let Ok(()) = inputs.push(input) else {
                return Err(Halt::Memory);
            };
        }
        Ok(inputs)
    }

    fn hints_of_run(&self, unit: Unit, inputs: &[Input], collected: &Collected) -> Vec<u8>
        ensures { IsHint result.items }
    {
        if self.takes_hints {
            hints_of(self.alloc, inputs, collected, unit)
        } else {
            Vec::new(self.alloc)
        }
    }

    // The text of this view of a run, and what is warned of behind it. Files are dropped before a text is made that doesn't name them.
    fn made_of_view(
        &self,
        unit: Unit,
        view: &View,
        files: Vec<Input>,
        collected: &Collected,
    ) -> Result<Made, Halt>
        requires { length files.items ≡ length collected.now.end.ends.items }
        ensures text { IfOk result (λ made. made.text.items ≡ text_of unit view.now files.items
            collected.now.end.ends.items collected.now.ledger.journal) }
        ensures warnings { IfOk result (λ made. made.warnings.items ≡ warned_of_view view.now
            files.items collected.now.end.ends.items collected.now.ledger.journal) }
        ensures fits { IfOk result (λ made. Fits unit view.now files.items
            collected.now.end.ends.items collected.now.ledger.journal) }
        ensures stop { IfErr result (OfStop (Exceeds unit view.now files.items
            collected.now.end.ends.items collected.now.ledger.journal)) }
    {
        let (alloc, ledger) = (self.alloc, &collected.ledger);
        match view {
            View::Report { warns } => {
                let Ok(warnings) = warned(alloc, *warns, files, collected) else {
                    return Err(Halt::Memory);
                };
                match report(alloc, unit, ledger) {
                    Ok(text) => Ok(Made { text, warnings }),
                    Err(_) => Err(Halt::Memory),
                }
            }
            View::Refusals => {
                let warnings = Vec::new(alloc);
                match refusals(alloc, unit, ledger, &files, &collected.end.ends) {
                    Ok(text) => Ok(Made { text, warnings }),
                    Err(_) => Err(Halt::Memory),
                }
            }
            View::Folded(labels) => {
                let Ok(warnings) = warned(alloc, true, files, collected) else {
                    return Err(Halt::Memory);
                };
                match folded(alloc, ledger, labels) {
                    Ok(text) => Ok(Made { text, warnings }),
                    Err(fault) => Err(halt_of_stacks(alloc, fault)),
                }
            }
            View::Page(page) => self.made_of_page(unit, page, &files, collected),
        }
    }

    fn made_of_page(
        &self,
        unit: Unit,
        view: &PageView,
        files: &[Input],
        collected: &Collected,
    ) -> Result<Made, Halt>
        requires { length files.now ≡ length collected.now.end.ends.items }
        ensures text { IfOk result (λ made. made.text.items ≡ text_of unit (OfPage view.now)
            files.now collected.now.end.ends.items collected.now.ledger.journal) }
        ensures warnings { IfOk result (λ made. made.warnings.items
            ≡ warned_of_view (OfPage view.now) files.now collected.now.end.ends.items collected.now.ledger.journal) }
        ensures fits { IfOk result (λ made. Fits unit (OfPage view.now) files.now
            collected.now.end.ends.items collected.now.ledger.journal) }
        ensures stop { IfErr result (OfStop (Exceeds unit (OfPage view.now) files.now
            collected.now.end.ends.items collected.now.ledger.journal)) }
    {
        let (alloc, options, ends) = (self.alloc, &view.options, &collected.end.ends);
        let Ok(table) = self.page_table(options, files, collected) else {
            return Err(Halt::Memory);
        };
        let Ok(refused) = warnings_of(alloc, &collected.ledger, files, ends) else {
            return Err(Halt::Memory);
        };
        let Ok(warnings) = warned_of_page(alloc, view, &table, &refused) else {
            return Err(Halt::Memory);
        };
        let texts = TableTexts {
            alloc,
            unit,
            says_runs: false,
            options,
        };
        let text = match texts.table(TableForm::Json, &table) {
            Ok(text) => text,
            Err(halt) => return Err(halt),
        };
        drop(table);
        let Ok(text) = string_of(text) else {
            return Err(Halt::Memory);
        };
        let (ledger, labels) = (&collected.ledger, &view.labels);
        match page(alloc, unit, ledger, files, ends, labels, text) {
            Ok(text) => Ok(Made { text, warnings }),
            Err(fault) => Err(halt_of_page(alloc, fault)),
        }
    }

    // The table of a page, of what was collected of these files.
    fn page_table(
        &self,
        options: &TableOptions,
        files: &[Input],
        collected: &Collected,
    ) -> Result<Table, AllocError>
        requires { length files.now ≡ length collected.now.end.ends.items }
        ensures { IfOk result (λ table. table ≡ narrowed options.now.narrowing
            (table_of_run (summed_of options.now)
            (run_of_files files.now collected.now.end.ends.items collected.now.ledger.journal))) }
    {
        let schema = summed_of(self.alloc, options)?;
        let all = table_of_run(self.rt, self.alloc, &schema, files, collected)?;
        let keys = HashKeys::random(self.rt);
        narrowed(self.alloc, keys, &options.narrowing, all)
    }
}

// The lines that warn of these files, where they are wanted.
fn warned(
    alloc: Global,
    warns: bool,
    files: Vec<Input>,
    collected: &Collected,
) -> Result<Vec<u8>, AllocError>
    requires { length files.items ≡ length collected.now.end.ends.items }
    ensures { IfOk result (λ warnings. warnings.items ≡ warned_if warns files.items
        collected.now.end.ends.items collected.now.ledger.journal) }
{
    if !warns {
        return Ok(Vec::new(alloc));
    }
    let refused = warnings_of(alloc, &collected.ledger, &files, &collected.end.ends)?;
    Ok(warning_lines(alloc, &refused)?.into_bytes())
}

// A run was refused.
fn refused(alloc: Global, error: RunError) -> Halt
    ensures { OfStop (λ lines. lines ≡ run_line (run_code error)) result }
{
    match error {
        RunError::Memory => Halt::Memory,
        RunError::FileCount => Halt::of_run(alloc, error.code()).with_hint(many_files(alloc)),
        _ => Halt::of_run(alloc, error.code()),
    }
}

/// Folded stacks were not made.
pub(crate) fn halt_of_stacks(alloc: Global, fault: StacksFault) -> Halt
    ensures { OfStop (λ lines. (fault ≡ TooLarge)
        × (lines ≡ run_line (number_of StacksTooLarge))) result }
{
    match fault {
        StacksFault::Memory => Halt::Memory,
        StacksFault::TooLarge => Halt::of_run(alloc, Fault::StacksTooLarge.code()),
    }
}
