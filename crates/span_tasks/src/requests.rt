//! What comes of a request.
ghost use Rattle.std.specs.Prelude.{◌≡◌, ◌≤◌, IfOk};
ghost use Rattle.span_tasks.specs.{IsHint, Outcome.PrintsOrStops, Requests.{IsOutcome, Prints, PrintsFiles, PrintsNamed, Stops, StopsFiles, StopsNamed, base_in, base_of, ending_in, ending_of}};

use crate::outcome::{Outcome, Print};
use crate::place::Place;
use crate::side::Apart;
use span_request::{Items, Request, TableText, Task};
use span_runs::{Halt, Listed, Name, Named, Source, Stop, files_of, names_of};
use std::alloc::AllocError;
use std::random::RandomSource;
use std::sync::Wait;
use std::thread::Threads;

impl<'a, R: Threads + Wait + RandomSource + Sync, S: Source + Sync> Place<'a, R, S> {
    /// What comes of a request, unless memory is refused.
    pub fn outcome_of(&self, request: Request) -> Result<Outcome, AllocError>
        ensures outcome { IfOk result (IsOutcome (S.bytes self.now.source.now) (S.folders self.now.source.now) request) }
        ensures status { IfOk result (λ outcome. outcome.status ≤ 2) }
        ensures hints { IfOk result (λ outcome. IsHint outcome.hints.items) }
    {
        let alloc = self.alloc;
        match request {
            Request::Run { task, files } => Outcome::of(alloc, self.print_named(&task, files)),
            Request::Show(text) => Ok(Outcome::printing(Print {
                text: text.into_bytes(),
                lines: Vec::new(alloc),
                warnings: Vec::new(alloc),
                hints: Vec::new(alloc),
            })),
            Request::Refuse(text) => Ok(Outcome::stopping(
                alloc,
                Stop {
                    lines: text.into_bytes(),
                    hints: Vec::new(alloc),
                },
            )),
        }
    }

    // What a task prints of what is named.
    fn print_named(&self, task: &Task, files: Named) -> Result<Print, Halt>
        ensures { PrintsOrStops
            (PrintsNamed (S.bytes self.now.source.now) (S.folders self.now.source.now) task.now files)
            (StopsNamed (S.bytes self.now.source.now) (S.folders self.now.source.now) task.now files)
            result }
    {
        let names = match names_of(self.alloc, files, self.source) {
            Ok(names) => names,
            Err(halt) => return Err(halt),
        };
        self.print_names(task, &names)
    }

    // What a task prints of the files that these names stand for. All folders are looked through before a file is read.
    fn print_names(&self, task: &Task, names: &[Name]) -> Result<Print, Halt>
        ensures { PrintsOrStops
            (PrintsFiles (S.bytes self.now.source.now) (S.folders self.now.source.now) task.now names.now)
            (StopsFiles (S.bytes self.now.source.now) (S.folders self.now.source.now) task.now names.now)
            result }
    {
        let (alloc, source, ending) = (self.alloc, self.source, ending_of(task));
        let base = match files_of(alloc, source, base_of(task), ending) {
            Ok(base) => base,
            Err(halt) => return Err(halt),
        };
        let files = match files_of(alloc, source, names, ending) {
            Ok(files) => files,
            Err(halt) => return Err(halt),
        };
        match self.print_task(task, &base, &files) {
            Ok(print) => Ok(print),
            Err(halt) => Err(halt),
        }
    }

    // What a task prints of these files, and of those of a base.
    fn print_task(&self, task: &Task, base: &Listed, files: &Listed) -> Result<Print, Halt>
        ensures { PrintsOrStops
            (Prints (S.bytes self.now.source.now) task.now base.now files.now)
            (Stops (S.bytes self.now.source.now) task.now base.now files.now) result }
    {
        match task {
            Task::Collect { settings, view } => self.print_view(settings, view, &files.names),
            Task::Pages {
                settings,
                jobs,
                view,
            } => self.print_page(
                Apart {
                    settings: *settings,
                    jobs: *jobs,
                    sort: true,
                },
                view,
                files,
            ),
            Task::Stacks {
                settings,
                jobs,
                labels,
            } => self.print_stacks(
                Apart {
                    settings: *settings,
                    jobs: *jobs,
                    sort: true,
                },
                labels,
                files,
            ),
            Task::Tabulate(task) => self.print_tables(task, base, files),
        }
    }
}

// The names of a base.
fn base_of(task: &Task) -> &[Name]
    ensures { result.now ≡ base_of task.now }
{
    match task {
        Task::Tabulate(task) => base_in(&task.text),
        _ => &[],
    }
}

fn base_in(text: &TableText) -> &[Name]
    ensures { result.now ≡ base_in text.now }
{
    match text {
        TableText::Table(_) => &[],
        TableText::Changes(asked) => &asked.base,
        TableText::Repetitions(asked) => &asked.base,
    }
}

// How names end of files below a folder.
fn ending_of(task: &Task) -> &'static str
    ensures { result.now ≡ ending_of task.now }
{
    match task {
        Task::Tabulate(task) => ending_in(task.items),
        _ => ".json",
    }
}

fn ending_in(items: Items) -> &'static str
    ensures { result.now ≡ ending_in items }
{
    match items {
        Items::Printed => ".jsonl",
        _ => ".json",
    }
}
