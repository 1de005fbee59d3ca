//! The folded stacks of files each of which is a run of its own, added.
ghost use Rattle.span_tasks.specs.{Outcome.PrintsOrStops, Stacks.{PrintsStacks, StopsStacks}};

use crate::outcome::Print;
use crate::place::Place;
use crate::side::Apart;
use crate::together::halt_of_stacks;
use span_faults::warning_lines;
use span_report::stacks::SpanColumn;
use span_runs::{Gathered, Halt, Listed, Source, gather_apart};
use span_stack_sums::StackSum;
use std::random::RandomSource;
use std::sync::Wait;
use std::thread::Threads;

impl<'a, R: Threads + Wait + RandomSource + Sync, S: Source + Sync> Place<'a, R, S> {
    /// The stacks of files, added. Frames are labels by these columns.
    pub(crate) fn print_stacks(
        &self,
        apart: Apart,
        columns: &Vec<SpanColumn>,
        files: &Listed,
    ) -> Result<Print, Halt>
        ensures { PrintsOrStops
            (PrintsStacks (S.bytes self.now.source.now) files.now apart.settings columns.now.items)
            (StopsStacks (S.bytes self.now.source.now) files.now apart.settings columns.now.items)
            result }
    {
        self.source.begin_apart(files.names.len() as u64);
        let gathered: Gathered<StackSum> = match gather_apart(
            self.rt,
            self.alloc,
            self.source,
            files,
            &apart.settings,
            columns,
            self.jobs_apart(&apart),
        ) {
            Ok(gathered) => gathered,
            Err(halt) => return Err(halt),
        };
        let Gathered { runs: sum, said } = gathered;
        let text = match sum.into_text(self.alloc) {
            Ok(text) => text,
            Err(fault) => return Err(halt_of_stacks(self.alloc, fault)),
        };
        let Ok(warnings) = warning_lines(self.alloc, &said.warnings) else {
            return Err(Halt::Memory);
        };
        Ok(Print {
            text,
            lines: said.lines,
            warnings: warnings.into_bytes(),
            hints: Vec::new(self.alloc),
        })
    }
}
