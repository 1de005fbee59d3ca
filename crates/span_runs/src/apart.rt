//! Files each of which is a run of its own, gathered in several jobs at once.
ghost use Rattle.std.specs.Prelude.{◌≡◌, ◌≤◌, length};
ghost use Rattle.span_runs.specs.{Jobs.places, Runs.shortened, Stops.{AddsOrStops, JoinsFiles, GathersOrStops}};

use crate::file_run::collect_file;
use crate::folders::Listed;
use crate::gathered::Gathered;
use crate::gathering::Gathering;
use crate::jobs::{Jobs, Stopped, in_jobs};
use crate::source::{Name, Source, jobs_for, sizes_of};
use crate::stop::Halt;
use span_collect::Settings;
use span_names::HashKeys;
use std::alloc::Global;
use std::random::RandomSource;
use std::sync::Wait;
use std::thread::Threads;

// What the jobs have in common.
#[derive(Drop)]
struct FileWork<'a, S, B> {
    alloc: Global,
    source: &'a S,
    settings: Settings,
    keys: HashKeys,
    // By what runs are summed.
    by: &'a B,
    // How many bytes of each name the column of files leaves out.
    cut: usize,
    // Whether each job puts what it gathers in order.
    sort: bool,
    stopped: &'a Stopped,
}

/// Reads these files one after another, in several jobs at once, collects each as a run of its own, and gathers what they come
/// to, summed by this. The first file that stops, in the order of the names, decides.
pub fn gather_apart<T: Gathering, S: Source + Sync, R: Threads + Wait + RandomSource + Sync>(
    rt: &R,
    alloc: Global,
    source: &S,
    files: &Listed,
    settings: &Settings,
    by: &T::By,
    jobs: Jobs,
) -> Result<Gathered<T>, Halt>
    ensures { GathersOrStops (S.bytes source.now) files.now.names.items settings.now
        (shortened files.now.cut (T.come_to by.now)) result }
{
    let names = files.names.as_slice();
    let Ok(sizes) = sizes_of(alloc, source, names) else {
        return Err(Halt::Memory);
    };
    let stopped = Stopped::nowhere();
    let work = FileWork {
        alloc,
        source,
        settings: *settings,
        keys: HashKeys::random(rt),
        by,
        cut: files.cut,
        sort: jobs.sort,
        stopped: &stopped,
    };
    let most = jobs_for(source, names, jobs.most);
    gather_in_jobs(rt, &work, names, &sizes, most)
}

// Gathers these files, which are thought to be so large, in so many jobs.
fn gather_in_jobs<T: Gathering, S: Source + Sync, R: Threads + Wait + RandomSource + Sync>(
    rt: &R,
    work: &FileWork<S, T::By>,
    names: &[Name],
    sizes: &[u64],
    jobs: u32,
) -> Result<Gathered<T>, Halt>
    requires { length sizes.now ≡ length names.now }
    ensures { GathersOrStops (S.bytes work.now.source.now) names.now
        work.now.settings (shortened work.now.cut (T.come_to work.now.by.now)) result }
{
    let take = move |from: usize, to: usize| -> Result<Gathered<T>, Halt>
        requires { (from ≤ to) × (to ≤ length names.now) }
        ensures { GathersOrStops (S.bytes work.entry.now.source.now)
            (places from to names.entry.now) work.entry.now.settings
            (shortened work.entry.now.cut (T.come_to work.entry.now.by.now)) result }
    { gather_in_job(rt, work, &names[from..to], from as u64) };
    let alloc = work.alloc;
    let join = move |first, second| -> Result<Gathered<T>, Halt>
        ensures { JoinsFiles T.come_to first second result }
    { joined(alloc, first, second) };
    in_jobs(rt, sizes, jobs, &take, &join)
}

// Gathers the files from this place on, one after another, unless one before has stopped in another job.
fn gather_in_job<T: Gathering, S: Source, R: Threads + Wait + RandomSource + Sync>(
    rt: &R,
    work: &FileWork<S, T::By>,
    names: &[Name],
    place: u64,
) -> Result<Gathered<T>, Halt>
    ensures { GathersOrStops (S.bytes work.now.source.now) names.now work.now.settings
        (shortened work.now.cut (T.come_to work.now.by.now)) result }
{
    let Ok(none) = Gathered::of_none(work.alloc, work.keys, work.by) else {
        return Err(Halt::Memory);
    };
    let mut gathered: Gathered<T> = none;
    let mut place = place;
    for name in names {
        if work.stopped.is_before(place) {
            // Nobody looks at what this job gives: a job before it stopped, and that one decides.
            return Err(Halt::Memory);
        }
        gathered = match add_file(rt, work, name, gathered) {
            Ok(more) => more,
            Err(halt) => {
                work.stopped.at(place);
                return Err(halt);
            }
        };
        place = place.saturating_add(1);
    }
    if !work.sort {
        return Ok(gathered);
    }
    match gathered.runs.in_order() {
        Ok(runs) => Ok(Gathered { runs, ..gathered }),
        Err(_) => Err(Halt::Memory),
    }
}

// With the file of this name.
fn add_file<T: Gathering, S: Source, R: Threads + Wait + RandomSource + Sync>(
    rt: &R,
    work: &FileWork<S, T::By>,
    name: &Name,
    gathered: Gathered<T>,
) -> Result<Gathered<T>, Halt>
    ensures { AddsOrStops (S.bytes work.now.source.now) name.now work.now.settings
        (shortened work.now.cut (T.come_to work.now.by.now)) gathered result }
{
    let collected = match collect_file(rt, work.alloc, work.source, name, &work.settings) {
        Ok(collected) => collected,
        Err(halt) => {
            let Gathered { said, .. } = gathered;
            return Err(halt.after(said.lines));
        }
    };
    let Ok(collected) = collected.shorter(work.alloc, work.cut) else {
        return Err(Halt::Memory);
    };
    match gathered.with_run(work.alloc, work.keys, work.by, &collected) {
        Ok(more) => Ok(more),
        Err(halt) => Err(halt),
    }
}

// The files of two groups, of which those of the second come after those of the first.
fn joined<T: Gathering>(
    alloc: Global,
    first: Result<Gathered<T>, Halt>,
    second: Result<Gathered<T>, Halt>,
) -> Result<Gathered<T>, Halt>
    ensures { JoinsFiles T.come_to first second result }
{
    let first = match first {
        Ok(first) => first,
        Err(halt) => return Err(halt),
    };
    let second = match second {
        Ok(second) => second,
        Err(halt) => {
            let Gathered { said, .. } = first;
            return Err(halt.after(said.lines));
        }
    };
    match first.joined(alloc, second) {
        Ok(both) => Ok(both),
        Err(halt) => Err(halt),
    }
}
