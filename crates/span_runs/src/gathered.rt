//! Files that were each a run of its own, as they are gathered.
ghost use Rattle.std.specs.Prelude.{◌≡◌, ◌+◌, ◌≤◌, ◌^◌, ◌∷◌, ◌++◌, [], List, length, IfErr, IfOk};
ghost use Rattle.span_runs.specs.{FileCount, number_of, run_line, Run, TooMany, Apart.run_of, Gathering.TakesAlike, Said.{IsBehind, SaysOfRun}, Stops.{IsTooMany, OfStop}, declared.stop.Halt.TheVariants.Memory};

use crate::file_run::FileRun;
use crate::gathering::Gathering;
use crate::said::Said;
use crate::stop::Halt;
use span_event::Fault;
use span_names::HashKeys;
use span_table::SumFault;
use std::alloc::{AllocError, Global};

/// What files that were each a run of its own come to, and what is said of them.
#[derive(Drop)]
pub struct Gathered<T> {
    pub runs: T,
    pub said: Said,
}

impl<T: Gathering> Gathered<T> {
    /// No files.
    pub fn of_none(alloc: Global, keys: HashKeys, by: &T::By) -> Result<Gathered<T>, AllocError>
        ensures runs { IfOk result (λ none. T.come_to by.now [] none.runs) }
        ensures lines { IfOk result (λ none. none.said.lines.items ≡ []) }
        ensures warnings { IfOk result (λ none. none.said.warnings.items ≡ []) }
    {
        Ok(Gathered {
            runs: T::of_none(alloc, keys, by)?,
            said: Said::nothing(alloc),
        })
    }

    /// With the run of a file, which was read or refused.
    pub fn with_run(
        self,
        alloc: Global,
        keys: HashKeys,
        by: &T::By,
        run: &FileRun,
    ) -> Result<Gathered<T>, Halt>
        requires { length run.now.collected.end.ends.items ≡ 1 }
        ensures runs { IfOk result (λ more.
            TakesAlike (T.come_to by.now) self.runs (run_of run.now) more.runs) }
        ensures said { IfOk result (λ more. SaysOfRun run.now self.said more.said) }
        ensures stop { IfErr result (OfStop
            (IsTooMany (T.come_to by.now) self.runs 1 self.said.lines.items)) }
    {
        let Gathered { runs, said } = self;
        let Ok(more) = Said::of_run(alloc, run) else {
            return Err(Halt::Memory);
        };
        match runs.with_run(alloc, keys, by, run) {
            Ok(runs) => with_said(runs, said, more),
            Err(fault) => Err(halt_of_sum(alloc, fault, said.lines)),
        }
    }

    // With the files after them.
    pub(crate) fn joined(self, alloc: Global, other: Gathered<T>) -> Result<Gathered<T>, Halt>
        ensures runs { IfOk result (λ both.
            (by : T.By) (runs others : List Run)
            → T.come_to by runs self.runs → T.come_to by others other.runs
            → T.come_to by (runs ++ others) both.runs) }
        ensures said { IfOk result (λ both. IsBehind self.said other.said both.said) }
        ensures stop { IfErr result (OfStop (λ lines.
            (lines ≡ self.said.lines.items ++ run_line (number_of FileCount))
            × ((by : T.By) (runs others : List Run)
            → T.come_to by runs self.runs → T.come_to by others other.runs
            → 2 ^ 32 ≤ length runs + length others))) }
    {
        let Gathered { runs, said } = self;
        let Gathered {
            runs: more_runs,
            said: more,
        } = other;
        match runs.joined(more_runs) {
            Ok(runs) => with_said(runs, said, more),
            Err(fault) => Err(halt_of_sum(alloc, fault, said.lines)),
        }
    }
}

// What runs come to, with this said of some and more of others behind it.
fn with_said<T: Drop>(runs: T, said: Said, more: Said) -> Result<Gathered<T>, Halt>
    ensures runs { IfOk result (λ gathered. gathered.runs ≡ runs) }
    ensures said { IfOk result (λ gathered. IsBehind said more gathered.said) }
    ensures memory { IfErr result (λ halt. halt ≡ Memory) }
{
    match said.with(more) {
        Ok(said) => Ok(Gathered { runs, said }),
        Err(_) => Err(Halt::Memory),
    }
}

// A sum stopped behind these lines.
fn halt_of_sum(alloc: Global, fault: SumFault, lines: Vec<u8>) -> Halt
    ensures { OfStop (λ said. (said ≡ lines.items ++ run_line (number_of FileCount))
        × (fault ≡ TooMany)) result }
{
    match fault {
        SumFault::Memory => Halt::Memory,
        SumFault::TooMany => Halt::of_run(alloc, Fault::FileCount.code()).after(lines),
    }
}
