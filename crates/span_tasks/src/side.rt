//! The tables of one side, as they are gathered.
ghost use Rattle.std.specs.Prelude.{◌≡◌, ◌∷◌, ◌++◌, [], true, false, length, IfErr, IfOk};
ghost use Rattle.span_runs.specs.declared.stop.Halt.TheVariants.{Memory};
ghost use Rattle.span_tasks.specs.{AreGathered, GathersOrStops, IsHint, shortened, OfStop, StopsAmong, run_of_files, table_of_run, warnings_of, Sides.{AreOptions, ComeTo, IsNarrowed, IsOfRun}, Summed.summed_of, Together.StopsTogether};

use crate::place::Place;
use crate::sides::Wanted;
use crate::summed::summed_of;
use crate::together::TogetherRun;
use span_collect::Settings;
use span_collect::refusals::warnings_of;
use span_event::Unit;
use span_names::HashKeys;
use span_narrowing::narrowed;
use span_request::TableOptions;
use span_runs::{
    Gathered, Gathering, Halt, Jobs, Listed, Name, Said, Source, Stop, gather_apart, table_of_run,
};
use span_table::{Schema, Table, TableSum, copies_of};
use std::alloc::{AllocError, Global};
use std::random::RandomSource;
use std::sync::Wait;
use std::thread;
use std::thread::Threads;

const MOST_JOBS: usize = 64;

/// The tables of one side, of one schema and in one unit; and what is said behind what is printed of them.
#[derive(Drop)]
pub(crate) struct Side {
    pub(crate) unit: Unit,
    pub(crate) schema: Schema,
    pub(crate) tables: Vec<Table>,
    pub(crate) said: Said,
    pub(crate) hints: Vec<u8>,
}

/// How files are collected that are runs of their own: in so many jobs at once, or one for each processor that the system grants; and
/// whether each job puts what it gathers in order, as it pays where all is printed so.
#[derive(Clone, Copy)]
pub(crate) struct Apart {
    pub(crate) settings: Settings,
    pub(crate) jobs: Option<u32>,
    pub(crate) sort: bool,
}

// A table, its rows put in order where that is wanted.
fn kept(table: Table, sort: bool) -> Table
    ensures { result ≡ table }
{
    if sort { table.in_order() } else { table }
}

/// A list of one table.
pub(crate) fn only(alloc: Global, table: Table) -> Result<Vec<Table>, AllocError>
    ensures { IfOk result (λ tables. tables.items ≡ table ∷ []) }
{
    let mut tables = Vec::with_capacity(alloc, 1)?;
    tables.push(table)?;
    Ok(tables)
}

impl Side {
    /// What stopped behind this side, with its lines and hints before.
    pub(crate) fn before(self, stop: Stop) -> Result<Stop, AllocError>
        requires mine { IsHint self.hints.items }
        requires its { IsHint stop.hints.items }
        ensures lines { IfOk result (λ both. both.lines.items
            ≡ self.said.lines.items ++ stop.lines.items) }
        ensures hints { IfOk result (λ both. IsHint both.hints.items) }
    {
        let Side {
            said,
            mut hints,
            ..
        } = self;
        let mut lines = said.lines;
        lines.extend_from_slice(&stop.lines)?;
        hints.extend_from_slice(&stop.hints)?;
        Ok(Stop { lines, hints })
    }
}

impl<'a, R: Threads + Wait + RandomSource + Sync, S: Source + Sync> Place<'a, R, S> {
    /// The table of what is named, as one run.
    pub(crate) fn run_side(
        &self,
        settings: &Settings,
        options: &TableOptions,
        names: &[Name],
    ) -> Result<Side, Halt>
        ensures side { IfOk result (λ side. AreOptions settings.now options.now side
            × IsOfRun (S.bytes self.now.source.now) names.now settings.now options.now side) }
        ensures hints { IfOk result (λ side. IsHint side.hints.items) }
        ensures stop { IfErr result
            (OfStop (StopsTogether (S.bytes self.now.source.now) names.now settings.now)) }
    {
        let run = match self.collect_together(settings, names) {
            Ok(run) => run,
            Err(halt) => return Err(halt),
        };
        match self.side_of_run(settings.format.unit, options, run) {
            Ok(side) => Ok(side),
            Err(_) => Err(Halt::Memory),
        }
    }

    fn side_of_run(
        &self,
        unit: Unit,
        options: &TableOptions,
        run: TogetherRun,
    ) -> Result<Side, AllocError>
        requires { length run.inputs.items ≡ length run.collected.end.ends.items }
        ensures unit { IfOk result (λ side. side.unit ≡ unit) }
        ensures schema { IfOk result (λ side. side.schema ≡ summed_of options.now) }
        ensures tables { IfOk result (λ side. side.tables.items
            ≡ table_of_run (summed_of options.now)
            (run_of_files run.inputs.items run.collected.end.ends.items run.collected.ledger.journal)
            ∷ []) }
        ensures lines { IfOk result (λ side. side.said.lines ≡ run.lines) }
        ensures warnings { IfOk result (λ side. side.said.warnings.items
            ≡ warnings_of run.inputs.items run.collected.end.ends.items run.collected.ledger.journal) }
        ensures hints { IfOk result (λ side. side.hints ≡ run.hints) }
    {
        let alloc = self.alloc;
        let schema = summed_of(alloc, options)?;
        let TogetherRun {
            inputs,
            collected,
            lines,
            hints,
        } = run;
        let table = table_of_run(self.rt, alloc, &schema, &inputs, &collected)?;
        let warnings = warnings_of(alloc, &collected.ledger, &inputs, &collected.end.ends)?;
        drop(inputs);
        self.let_go(collected);
        Ok(Side {
            unit,
            schema,
            tables: only(alloc, table)?,
            said: Said { lines, warnings },
            hints,
        })
    }

    /// The table of files each of which is a run of its own.
    pub(crate) fn sum_side(
        &self,
        apart: &Apart,
        options: &TableOptions,
        files: &Listed,
    ) -> Result<Side, Halt>
        ensures side { IfOk result (λ side. AreOptions apart.now.settings options.now side
            × AreGathered (S.bytes self.now.source.now) files.now.names.items apart.now.settings
            (λ runs. shortened files.now.cut (ComeTo false (summed_of options.now))
            runs side.tables.items) side.said) }
        ensures hints { IfOk result (λ side. IsHint side.hints.items) }
        ensures stop { IfErr result
            (OfStop (StopsAmong (S.bytes self.now.source.now) apart.now.settings files.now.names.items)) }
    {
        let summed: Gathered<TableSum> = match self.gather(apart, options, files) {
            Ok(summed) => summed,
            Err(halt) => return Err(halt),
        };
        let Gathered { runs: sum, said } = summed;
        let Ok(table) = sum.into_table() else {
            return Err(Halt::Memory);
        };
        let Ok(tables) = only(self.alloc, table) else {
            return Err(Halt::Memory);
        };
        self.side_of(apart.settings.format.unit, options, tables, said)
    }

    /// The table of each of the files, which are runs of their own.
    pub(crate) fn each_side(
        &self,
        apart: &Apart,
        options: &TableOptions,
        files: &Listed,
    ) -> Result<Side, Halt>
        ensures side { IfOk result (λ side. AreOptions apart.now.settings options.now side
            × AreGathered (S.bytes self.now.source.now) files.now.names.items apart.now.settings
            (λ runs. shortened files.now.cut (ComeTo true (summed_of options.now))
            runs side.tables.items) side.said) }
        ensures hints { IfOk result (λ side. IsHint side.hints.items) }
        ensures stop { IfErr result
            (OfStop (StopsAmong (S.bytes self.now.source.now) apart.now.settings files.now.names.items)) }
    {
        let tables: Gathered<Vec<Table>> = match self.gather(apart, options, files) {
            Ok(tables) => tables,
            Err(halt) => return Err(halt),
        };
        let Gathered { runs: tables, said } = tables;
        self.side_of(apart.settings.format.unit, options, tables, said)
    }

    fn side_of(
        &self,
        unit: Unit,
        options: &TableOptions,
        tables: Vec<Table>,
        said: Said,
    ) -> Result<Side, Halt>
        ensures unit { IfOk result (λ side. side.unit ≡ unit) }
        ensures schema { IfOk result (λ side. side.schema ≡ summed_of options.now) }
        ensures tables { IfOk result (λ side. side.tables ≡ tables) }
        ensures said { IfOk result (λ side. side.said ≡ said) }
        ensures hints { IfOk result (λ side. side.hints.items ≡ []) }
        ensures memory { IfErr result (λ halt. halt ≡ Memory) }
    {
        let Ok(schema) = summed_of(self.alloc, options) else {
            return Err(Halt::Memory);
        };
        Ok(Side {
            unit,
            schema,
            tables,
            said,
            hints: Vec::new(self.alloc),
        })
    }

    /// What files come to each of which is a run of its own.
    pub(crate) fn gather<T: Gathering<By = Schema>>(
        &self,
        apart: &Apart,
        options: &TableOptions,
        files: &Listed,
    ) -> Result<Gathered<T>, Halt>
        ensures { GathersOrStops (S.bytes self.now.source.now) files.now.names.items
            apart.now.settings
            (shortened files.now.cut (T.come_to (summed_of options.now))) result }
    {
        let Ok(schema) = summed_of(self.alloc, options) else {
            return Err(Halt::Memory);
        };
        gather_apart(
            self.rt,
            self.alloc,
            self.source,
            files,
            &apart.settings,
            &schema,
            self.jobs_apart(apart),
        )
    }

    /// The side with its tables narrowed.
    pub(crate) fn narrowed(&self, wanted: Wanted, side: Side) -> Result<Side, AllocError>
        ensures narrowed { IfOk result (IsNarrowed wanted.entry.options.now.narrowing side) }
        ensures hints { IfOk result (λ new. new.hints ≡ side.hints) }
    {
        let (options, sort) = (wanted.options, wanted.sort);
        let narrowing = &options.narrowing;
        let keys = HashKeys::random(self.rt);
        let schema = narrowing.shown_schema(self.alloc, &side.schema)?;
        let mut tables = Vec::with_capacity(self.alloc, side.tables.len())?;
        for table in side.tables {
            let table = narrowed(self.alloc, keys, narrowing, table)?;
            tables.push(kept(table, sort))?;
        }
        Ok(Side {
            schema,
            tables,
            ..side
        })
    }

    /// In which jobs files are gathered.
    pub(crate) fn jobs_apart(&self, apart: &Apart) -> Jobs {
        Jobs {
            most: self.jobs_of(apart.jobs),
            sort: apart.sort,
        }
    }

    /// How many jobs there are at once: so many, or one for each processor that the system grants.
    pub(crate) fn jobs_of(&self, jobs: Option<u32>) -> u32 {
        if let Some(jobs) = jobs {
            return jobs;
        }
        match thread::available_parallelism(self.rt) {
            Ok(count) => count.get().min(MOST_JOBS) as u32,
            Err(_) => 1,
        }
    }
}
