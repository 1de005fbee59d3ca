//! A page of files each of which is a run of its own.
ghost use Rattle.std.specs.Prelude.{◌≡◌, [], List, length, map, IfErr, IfOk};
ghost use Rattle.span_tasks.specs.{Unit as TheUnit, Holds, KeyedSums, OfStop, ShownRun, SpanColumn as TheColumn, Stands, StopsAmong, TakesRun, json_of, page_of_runs, rows_of, Outcome.PrintsOrStops, Pages.{AddsShown, AreHeld, IsPageSum, PrintsPage, StopsPage, shown_alone, shown_run, shown_runs}, Texts.{PageExceeds, PageFits}};

use crate::outcome::Print;
use crate::page_sum::PageSum;
use crate::place::Place;
use crate::side::Apart;
use crate::texts::{TableTexts, halt_of_page, string_of};
use crate::warnings::warned_of_page;
use span_collect::Settings;
use span_event::Unit;
use span_names::HashKeys;
use span_narrowing::narrowed;
use span_page::RunsPage;
use span_request::{PageView, TableForm};
use span_runs::{FileRun, Gathered, Halt, Listed, Name, Source, collect_file, gather_apart};
use span_stack_sums::StackSum;
use span_table::Table;
use std::alloc::AllocError;
use std::random::RandomSource;
use std::slice::from_ref;
use std::sync::Wait;
use std::thread::Threads;

// The most files whose runs a page shows.
const MOST_SHOWN: usize = 64;

// Files that were each a run of its own, as they are summed, and the page of their runs.
#[derive(Drop)]
struct ShownFiles {
    // Maps that files fill are hashed by these.
    keys: HashKeys,
    summed: Gathered<PageSum>,
    page: RunsPage,
}

impl<'a, R: Threads + Wait + RandomSource + Sync, S: Source + Sync> Place<'a, R, S> {
    /// A page of files. Where it shows their runs, they are collected one after another.
    pub(crate) fn print_page(
        &self,
        apart: Apart,
        view: &PageView,
        files: &Listed,
    ) -> Result<Print, Halt>
        ensures { PrintsOrStops
            (PrintsPage (S.bytes self.now.source.now) files.now apart.settings view.now)
            (StopsPage (S.bytes self.now.source.now) files.now apart.settings view.now) result }
    {
        self.source.begin_apart(files.names.len() as u64);
        let shown = match self.show_files(apart, view, files) {
            Ok(shown) => shown,
            Err(halt) => return Err(halt),
        };
        let ShownFiles { summed, page, .. } = shown;
        let Gathered { runs: sum, said } = summed;
        let PageSum { table, stacks } = sum;
        let Ok(all) = table.into_table() else {
            return Err(Halt::Memory);
        };
        let keys = HashKeys::random(self.rt);
        let Ok(table) = narrowed(self.alloc, keys, &view.options.narrowing, all) else {
            return Err(Halt::Memory);
        };
        let Ok(warnings) = warned_of_page(self.alloc, view, &table, &said.warnings) else {
            return Err(Halt::Memory);
        };
        let texts = TableTexts {
            alloc: self.alloc,
            unit: apart.settings.format.unit,
            says_runs: true,
            options: &view.options,
        };
        match self.text_of_runs(&texts, table, page, stacks) {
            Ok(text) => Ok(Print {
                text,
                lines: said.lines,
                warnings,
                hints: Vec::new(self.alloc),
            }),
            Err(halt) => Err(halt),
        }
    }

    fn show_files(&self, apart: Apart, view: &PageView, files: &Listed) -> Result<ShownFiles, Halt>
        ensures shown { IfOk result (AreHeld (shown_runs apart.settings)
            (S.bytes self.now.source.now) files.now.cut files.now.names.items apart.settings view.now) }
        ensures stop { IfErr result
            (OfStop (StopsAmong (S.bytes self.now.source.now) apart.settings files.now.names.items)) }
    {
        let names = files.names.as_slice();
        if names.len() <= MOST_SHOWN {
            return self.show_in_turn(&apart.settings, view, names, files.cut);
        }
        self.show_sum(apart, view, files)
    }

    // The sum of files alone.
    fn show_sum(&self, apart: Apart, view: &PageView, files: &Listed) -> Result<ShownFiles, Halt>
        ensures shown { IfOk result (AreHeld (λ inputs. [])
            (S.bytes self.now.source.now) files.now.cut files.now.names.items apart.settings view.now) }
        ensures stop { IfErr result
            (OfStop (StopsAmong (S.bytes self.now.source.now) apart.settings files.now.names.items)) }
    {
        let Ok(page) = RunsPage::begin(self.alloc) else {
            return Err(Halt::Memory);
        };
        let gathered = gather_apart(
            self.rt,
            self.alloc,
            self.source,
            files,
            &apart.settings,
            view,
            self.jobs_apart(&apart),
        );
        match gathered {
            Ok(summed) => Ok(ShownFiles {
                keys: HashKeys::random(self.rt),
                summed,
                page,
            }),
            Err(halt) => Err(halt),
        }
    }

    // The sum of files, and the run of each.
    fn show_in_turn(
        &self,
        settings: &Settings,
        view: &PageView,
        names: &[Name],
        cut: usize,
    ) -> Result<ShownFiles, Halt>
        ensures shown { IfOk result (AreHeld (map (shown_alone settings.now))
            (S.bytes self.now.source.now) cut names.now settings.now view.now) }
        ensures stop { IfErr result
            (OfStop (StopsAmong (S.bytes self.now.source.now) settings.now names.now)) }
    {
        let mut shown = match self.show_none(view) {
            Ok(none) => none,
            Err(_) => return Err(Halt::Memory),
        };
        for name in names {
            shown = match self.show_file(settings, view, name, cut, shown) {
                Ok(more) => more,
                Err(halt) => return Err(halt),
            };
        }
        Ok(shown)
    }

    fn show_none(&self, view: &PageView) -> Result<ShownFiles, AllocError>
        ensures sum { IfOk result (λ none. IsPageSum view.now [] none.summed.runs) }
        ensures lines { IfOk result (λ none. none.summed.said.lines.items ≡ []) }
        ensures warnings { IfOk result (λ none. none.summed.said.warnings.items ≡ []) }
        ensures runs { IfOk result (λ none. (unit : TheUnit)
            → Holds unit view.now.labels.items [] none.page) }
    {
        let keys = HashKeys::random(self.rt);
        Ok(ShownFiles {
            keys,
            summed: Gathered::of_none(self.alloc, keys, view)?,
            page: RunsPage::begin(self.alloc)?,
        })
    }

    // With the file of this name, of which the column of files leaves out so many bytes.
    fn show_file(
        &self,
        settings: &Settings,
        view: &PageView,
        name: &Name,
        cut: usize,
        shown: ShownFiles,
    ) -> Result<ShownFiles, Halt>
        ensures { AddsShown (S.bytes self.now.source.now) cut name.now settings.now view.now shown
            result }
    {
        let ShownFiles { keys, summed, page } = shown;
        let taken = match collect_file(self.rt, self.alloc, self.source, name, settings) {
            Ok(taken) => taken,
            Err(halt) => {
                let Gathered { said, .. } = summed;
                return Err(halt.after(said.lines));
            }
        };
        let Ok(taken) = taken.shorter(self.alloc, cut) else {
            return Err(Halt::Memory);
        };
        let Ok(page) = self.with_run(settings.format.unit, view, page, &taken) else {
            return Err(Halt::Memory);
        };
        match summed.with_run(self.alloc, keys, view, &taken) {
            Ok(summed) => Ok(ShownFiles { keys, summed, page }),
            Err(halt) => Err(halt),
        }
    }

    fn with_run(
        &self,
        unit: Unit,
        view: &PageView,
        page: RunsPage,
        run: &FileRun,
    ) -> Result<RunsPage, AllocError>
        requires { length run.now.collected.end.ends.items ≡ 1 }
        ensures { IfOk result (TakesRun unit view.now.labels.items (shown_run run.now) page) }
    {
        let collected = &run.collected;
        page.with_run(
            self.alloc,
            unit,
            &collected.ledger,
            from_ref(&run.file),
            &collected.end.ends,
            &view.labels,
        )
    }

    // The page of runs, with the table of all, and the graph of all their stacks.
    fn text_of_runs(
        &self,
        texts: &TableTexts,
        table: Table,
        page: RunsPage,
        stacks: StackSum,
    ) -> Result<Vec<u8>, Halt>
        ensures text { IfOk result (λ text.
            (labels : List TheColumn) (runs : List ShownRun) (sums : KeyedSums)
            → Holds texts.now.unit labels runs page → Stands stacks.rows sums
            → text.items ≡ page_of_runs texts.now.unit labels
            (json_of texts.now.unit texts.now.options.now.shown table) (rows_of sums) runs) }
        ensures fits { IfOk result (λ text.
            PageFits texts.now.options.now.shown table text.items) }
        ensures stop { IfErr result (OfStop (λ lines.
            (labels : List TheColumn) (runs : List ShownRun) (sums : KeyedSums)
            → Holds texts.now.unit labels runs page → Stands stacks.rows sums
            → PageExceeds texts.now.options.now.shown table (page_of_runs texts.now.unit labels
            (json_of texts.now.unit texts.now.options.now.shown table) (rows_of sums) runs) lines)) }
    {
        let text = match texts.table(TableForm::Json, &table) {
            Ok(text) => text,
            Err(halt) => return Err(halt),
        };
        self.let_go(table);
        let Ok(text) = string_of(text) else {
            return Err(Halt::Memory);
        };
        match page.end(self.alloc, text, stacks) {
            Ok(page) => Ok(page),
            Err(fault) => Err(halt_of_page(self.alloc, fault)),
        }
    }
}
