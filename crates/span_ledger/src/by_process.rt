//! The processes of a ledger, each with its threads and series, in the order in which a report prints them.
ghost use Rattle.std.specs.{List.Sorted.IsStrictlySortedBy, Ordering.int_cmp, Prelude.{◌≡◌, [], ℤ, List, map, IfOk, OnOk}};
ghost use Rattle.span_ledger.specs.{Gives, CounterStandsFor, series_rows, ascending, rows_by_process, rows_in_thread, Grouped.{GroupsGrow, group_of, rows_in_group, groups_of, with_series, with_thread}, Tracked.FollowsJournal};

use crate::listed::Listed;
use crate::track_rows::{process_row, thread_row, thread_span_rows};
use crate::tracks::Tracks;
use span_event::Thread;
use span_journal::{Entry, ProcessRow, SpanRow, ThreadRow};
use span_keyed_tracks::{InstantRow, SeriesRef, SeriesRow};
use std::alloc::{AllocError, Global};
use std::collections::{BTreeMap, BTreeSet};
use std::marker::Model;

/// The rows of a thread.
#[derive(Drop)]
pub struct ThreadRows {
    pub row: ThreadRow,
    /// One for each name of its closed spans, in byte order of names.
    pub spans: Vec<SpanRow>,
    /// One for each name and reach of its instants, by name, and then the wider reach first.
    pub instants: Vec<InstantRow>,
}

impl Model for ThreadRows {
    ghost use Rattle.span_ledger.specs.{ThreadRows};

    ghost Value = { ThreadRows };

    ghost view = { λ r.
        record { row = r.row; spans = r.spans.items; instants = r.instants.items } };
}

/// The rows of a process.
#[derive(Drop)]
pub struct ProcessRows {
    pub row: ProcessRow,
    /// In ascending order.
    pub threads: Vec<ThreadRows>,
    /// One for each of its series, by the counter's name, its id and the series.
    pub series: Vec<SeriesRow>,
}

impl Model for ProcessRows {
    ghost use Rattle.span_ledger.specs.{ProcessRows};

    ghost Value = { ProcessRows };

    ghost view = { λ r.
        record { row = r.row; threads = r.threads.items; series = r.series.items } };
}

// What is listed under one process.
#[derive(Drop)]
pub(crate) struct Group {
    threads: Vec<Thread>,
    series: Vec<SeriesRow>,
}

impl Model for Group {
    ghost use Rattle.span_ledger.specs.Grouped.{Grouped};

    ghost Value = { Grouped };

    ghost view = { λ g. record { threads = g.threads.items; series = g.series.items } };
}

impl Group {
    fn new(alloc: Global) -> Group
        ensures { (pid : ℤ) → result ≡ group_of [] [] pid }
    {
        Group {
            threads: Vec::new(alloc),
            series: Vec::new(alloc),
        }
    }

    fn add_thread(&mut self, thread: Thread) -> Result<(), AllocError>
        ensures { OnOk result (self.new ≡ with_thread thread self.old) }
    {
        if self.threads.is_empty() {
            self.threads.reserve_exact(1)?;
        }
        self.threads.push(thread)?;
        Ok(())
    }

    fn add_series(&mut self, row: SeriesRow) -> Result<(), AllocError>
        ensures { OnOk result (self.new ≡ with_series row self.old) }
    {
        if self.series.is_empty() {
            self.series.reserve_exact(1)?;
        }
        self.series.push(row)?;
        Ok(())
    }
}

/// A process with what is listed under it, from which its rows are made.
#[derive(Drop)]
pub struct ListedProcess {
    pid: i64,
    group: Group,
}

impl Model for ListedProcess {
    ghost use Rattle.std.specs.Prelude.{ℤ};
    ghost use Rattle.span_ledger.specs.Grouped.{Grouped};

    ghost Value = { ℤ × Grouped };

    ghost view = { λ p. (p.pid, p.group) };
}

// The processes that the tracks list, in ascending order.
pub(crate) fn listed_processes(
    alloc: Global,
    journal: &[Entry],
    tracks: &Tracks,
) -> Result<Vec<ListedProcess>, AllocError>
    requires { FollowsJournal journal.now tracks.now }
    ensures { IfOk result (λ processes.
        map (rows_in_group journal.now) processes.items ≡ rows_by_process journal.now) }
{
    let groups = grouped(alloc, tracks)?;
    list_of(alloc, groups)
}

fn list_of(alloc: Global, groups: BTreeMap<i64, Group>) -> Result<Vec<ListedProcess>, AllocError>
    ensures { IfOk result (λ processes. processes.items ≡ groups.entries) }
{
    let mut processes = Vec::with_capacity(alloc, groups.len())?;
    for (pid, group) in groups {
        processes.push(ListedProcess { pid, group })?;
    }
    Ok(processes)
}

// The rows of each process that the tracks list.
pub(crate) fn rows_by_process(
    alloc: Global,
    journal: &[Entry],
    tracks: &Tracks,
) -> Result<Vec<ProcessRows>, AllocError>
    requires { FollowsJournal journal.now tracks.now }
    ensures { IfOk result (λ processes. processes.items ≡ rows_by_process journal.now) }
{
    let listed = listed_processes(alloc, journal, tracks)?;
    let mut processes = Vec::with_capacity(alloc, listed.len())?;
    for process in listed {
        processes.push(rows_of(alloc, journal, tracks, process)?)?;
    }
    Ok(processes)
}

// The rows of a process with what is listed under it.
pub(crate) fn rows_of(
    alloc: Global,
    journal: &[Entry],
    tracks: &Tracks,
    process: ListedProcess,
) -> Result<ProcessRows, AllocError>
    requires { FollowsJournal journal.now tracks.now }
    ensures { IfOk result (λ rows. rows ≡ rows_in_group journal.now process) }
{
    let ListedProcess { pid, group } = process;
    let row = process_row(alloc, journal, tracks, pid)?;
    let threads = rows_in_threads(alloc, journal, tracks, &group.threads)?;
    Ok(ProcessRows {
        row,
        threads,
        series: group.series,
    })
}

fn rows_in_threads(
    alloc: Global,
    journal: &[Entry],
    tracks: &Tracks,
    threads: &[Thread],
) -> Result<Vec<ThreadRows>, AllocError>
    requires { FollowsJournal journal.now tracks.now }
    ensures { IfOk result (λ rows. rows.items ≡ map (rows_in_thread journal.now) threads.now) }
{
    let mut rows = Vec::with_capacity(alloc, threads.len())?;
    for thread in threads {
        rows.push(rows_in_thread(alloc, journal, tracks, thread)?)?;
    }
    Ok(rows)
}

fn rows_in_thread(
    alloc: Global,
    journal: &[Entry],
    tracks: &Tracks,
    thread: &Thread,
) -> Result<ThreadRows, AllocError>
    requires { FollowsJournal journal.now tracks.now }
    ensures { IfOk result (λ rows. rows ≡ rows_in_thread journal.now thread.now) }
{
    let row = thread_row(alloc, journal, tracks, thread)?;
    let spans = thread_span_rows(alloc, journal, tracks, thread)?;
    let instants = tracks.phases.meta.instant_rows_of(alloc, *thread)?;
    Ok(ThreadRows {
        row,
        spans,
        instants,
    })
}

// Each listed process with its listed threads and its series.
fn grouped(alloc: Global, tracks: &Tracks) -> Result<BTreeMap<i64, Group>, AllocError>
    ensures { IfOk result (λ groups. Gives CounterStandsFor tracks.now.phases.counters
        (λ es. groups_of tracks.now.processes tracks.now.listed (series_rows es)) groups.entries) }
{
    let mut groups = empty_groups(alloc, &tracks.listed)?;
    add_threads(&mut groups, tracks.listed.ordered_threads(alloc)?)?;
    add_series(alloc, &mut groups, tracks.phases.counters.sorted(alloc)?)?;
    Ok(groups)
}

fn empty_groups(alloc: Global, listed: &Listed) -> Result<BTreeMap<i64, Group>, AllocError>
    ensures { IfOk result (λ groups. groups.entries
        ≡ groups_of (ascending int_cmp listed.now.processes) [] []) }
{
    let mut groups = BTreeMap::new(alloc);
    for pid in &listed.processes {
        groups.insert(*pid, Group::new(alloc))?;
    }
    Ok(groups)
}

fn add_threads(
    groups: &mut BTreeMap<i64, Group>,
    threads: BTreeSet<Thread>,
) -> Result<(), AllocError>
    ensures { OnOk result ((pids : List ℤ) → IsStrictlySortedBy int_cmp pids
        → groups.old.entries ≡ groups_of pids [] []
        → groups.new.entries ≡ groups_of pids threads.keys []) }
{
    for thread in threads {
        add_thread(groups, thread)?;
    }
    Ok(())
}

// The series of all processes are kept in one map, so that one sort has those of each in order. Each row is made where it stays:
// there may be millions.
fn add_series(
    alloc: Global,
    groups: &mut BTreeMap<i64, Group>,
    rows: Vec<SeriesRef<'_>>,
) -> Result<(), AllocError>
    ensures { OnOk result ((pids : List ℤ) (threads : List Thread) → IsStrictlySortedBy int_cmp pids
        → groups.old.entries ≡ groups_of pids threads []
        → groups.new.entries ≡ groups_of pids threads rows.entry.items) }
{
    for row in rows {
        add_row(groups, row.to_row(alloc)?)?;
    }
    Ok(())
}

// A thread of a process that isn't there is left out.
fn add_thread(groups: &mut BTreeMap<i64, Group>, thread: Thread) -> Result<(), AllocError>
    ensures { OnOk result
        (GroupsGrow thread.pid (with_thread thread) groups.old.entries groups.new.entries) }
{
    match groups.get_mut(&thread.pid) {
        Some(group) => group.add_thread(thread),
        None => Ok(()),
    }
}

// So is a series.
fn add_row(groups: &mut BTreeMap<i64, Group>, row: SeriesRow) -> Result<(), AllocError>
    ensures { OnOk result
        (GroupsGrow row.key.pid (with_series row) groups.old.entries groups.new.entries) }
{
    match groups.get_mut(&row.key.pid) {
        Some(group) => group.add_series(row),
        None => Ok(()),
    }
}
