//! Tables that were printed: they are read back, and added in several jobs at once.
ghost use Rattle.std.specs.Prelude.{◌≤◌, length, true, IfErr, IfOk};
ghost use Rattle.span_tasks.specs.{Chooses, HasOtherSchema, LacksAsked, OfStop, Added.{AddsEach, BeginsWith, IsNoTable, IsTableBeside, IsText, SaysPart, StopsAdding, TakesName}, Sides.{AddsBehind, AddsOrStops, AddsToFirst, JoinsSums, StopsLater}, Summed.asked_of, places};

use crate::place::Place;
use crate::reading::begins_otherwise;
use crate::summed::tested_in;
use span_event::Fault;
use span_names::HashKeys;
use span_parts::{Asked, PartFault, Parts};
use span_request::TableOptions;
use span_runs::{Halt, Name, Source, Stopped, in_jobs, jobs_for, sizes_of, unread};
use span_table::Table;
use std::alloc::Global;
use std::random::RandomSource;
use std::sync::Wait;
use std::thread::Threads;

// The most bytes that a table may have.
const MOST_ADDED: u64 = 1_099_511_627_776;

// The first byte of each.
const FIRST: u8 = b'{';

// What jobs have in common that add tables.
#[derive(Drop)]
struct AddWork<'a, S> {
    alloc: Global,
    source: &'a S,
    stopped: &'a Stopped,
}

impl<'a, R: Threads + Wait + RandomSource + Sync, S: Source + Sync> Place<'a, R, S> {
    /// The table of this name, with the columns and the numbers that are asked for. Maps that files fill are hashed by these keys.
    pub(crate) fn first_parts(
        &self,
        keys: HashKeys,
        options: &TableOptions,
        name: &Name,
    ) -> Result<Parts, Halt>
        ensures asked { IfOk result (Chooses (asked_of options.now)) }
        ensures first { IfOk result (BeginsWith (S.bytes self.now.source.now) name.now) }
        ensures stop { IfErr result (OfStop (StopsAdding (S.bytes self.now.source.now)
            (LacksAsked (asked_of options.now)) name.now)) }
    {
        let text = match read_table(self.alloc, self.source, name) {
            Ok(text) => text,
            Err(halt) => return Err(halt),
        };
        let Ok(tested) = tested_in(self.alloc, options) else {
            return Err(Halt::Memory);
        };
        let asked = Asked {
            shown: &options.columns,
            tested: &tested,
            numbers: &options.numbers,
        };
        match Parts::of_first(self.alloc, keys, &asked, &text) {
            Ok(parts) => Ok(parts),
            Err(fault) => Err(halt_of_part(self.alloc, name, fault)),
        }
    }

    /// The sum of the tables of these names, each of which is of the kind of these parts.
    pub(crate) fn sum_beside(
        &self,
        keys: HashKeys,
        kind: &Parts,
        names: &[Name],
    ) -> Result<Parts, Halt>
        ensures { AddsOrStops (S.bytes self.now.source.now) kind.now names.now result }
    {
        let Ok(sizes) = sizes_of(self.alloc, self.source, names) else {
            return Err(Halt::Memory);
        };
        let stopped = Stopped::nowhere();
        let work = &AddWork {
            alloc: self.alloc,
            source: self.source,
            stopped: &stopped,
        };
        let take = move |from: usize, to: usize| -> Result<Parts, Halt>
            requires { (from ≤ to) × (to ≤ length names.now) }
            ensures { AddsOrStops (S.bytes work.entry.now.source.now) kind.entry.now
                (places from to names.entry.now) result }
        { add_in_job(work, kind, keys, &names[from..to], from as u64) };
        let join = move |first, second| -> Result<Parts, Halt>
            ensures { JoinsSums first second result }
        { joined(first, second) };
        let jobs = jobs_for(self.source, names, self.jobs_of(None));
        in_jobs(self.rt, &sizes, jobs, &take, &join)
    }

    /// The sum of a first table and those of the names behind it.
    pub(crate) fn sum_from(
        &self,
        keys: HashKeys,
        first: Parts,
        later: &[Name],
    ) -> Result<Parts, Halt>
        ensures { AddsToFirst (S.bytes self.now.source.now) first later.now result }
    {
        if self.jobs_of(None) == 1 {
            // One job has nothing to join.
            return self.add_here(first, later);
        }
        let rest = match self.sum_beside(keys, &first, later) {
            Ok(rest) => rest,
            Err(halt) => return Err(halt),
        };
        match first.join(rest) {
            Ok(sum) => Ok(sum),
            Err(_) => Err(Halt::Memory),
        }
    }

    // Parts with the tables of these names added to them, one after another.
    fn add_here(&self, parts: Parts, names: &[Name]) -> Result<Parts, Halt>
        ensures { AddsBehind (S.bytes self.now.source.now) parts names.now result }
    {
        let stopped = Stopped::nowhere();
        let work = AddWork {
            alloc: self.alloc,
            source: self.source,
            stopped: &stopped,
        };
        add_names(&work, parts, names, 0)
    }

    /// The tables of these names, each of which is of the kind of these parts.
    pub(crate) fn tables_beside(
        &self,
        keys: HashKeys,
        parts: &Parts,
        names: &[Name],
    ) -> Result<Vec<Table>, Halt>
        ensures tables { IfOk result (λ tables.
            AddsEach (S.bytes self.now.source.now) parts.now names.now tables.items) }
        ensures stop { IfErr result
            (OfStop (StopsLater (S.bytes self.now.source.now) true parts.now names.now)) }
    {
        let Ok(mut tables) = Vec::with_capacity(self.alloc, names.len()) else {
            return Err(Halt::Memory);
        };
        for name in names {
            let table = match self.table_beside(keys, parts, name) {
                Ok(table) => table,
                Err(halt) => return Err(halt),
            };
            let Ok(()) = tables.push(table) else {
                return Err(Halt::Memory);
            };
        }
        Ok(tables)
    }

    fn table_beside(&self, keys: HashKeys, parts: &Parts, name: &Name) -> Result<Table, Halt>
        ensures table { IfOk result
            (IsTableBeside (S.bytes self.now.source.now) parts.now name.now) }
        ensures stop { IfErr result (OfStop (StopsAdding (S.bytes self.now.source.now)
            (HasOtherSchema parts.now.schema parts.now.unit) name.now)) }
    {
        let Ok(none) = parts.of_none_beside(self.alloc, keys) else {
            return Err(Halt::Memory);
        };
        let sum = match add_name(self.alloc, self.source, none, name) {
            Ok(sum) => sum,
            Err(halt) => return Err(halt),
        };
        match sum.into_table() {
            Ok(table) => Ok(table),
            Err(_) => Err(Halt::Memory),
        }
    }
}

// Adds the tables of these names, of which the first has this place, to none of a kind, in order for what is joined.
fn add_in_job<S: Source>(
    work: &AddWork<S>,
    kind: &Parts,
    keys: HashKeys,
    names: &[Name],
    place: u64,
) -> Result<Parts, Halt>
    ensures { AddsOrStops (S.bytes work.now.source.now) kind.now names.now result }
{
    let none = match kind.of_none_beside(work.alloc, keys) {
        Ok(none) => none,
        Err(_) => return Err(Halt::Memory),
    };
    let added = match add_names(work, none, names, place) {
        Ok(added) => added,
        Err(halt) => return Err(halt),
    };
    match added.in_order() {
        Ok(added) => Ok(added),
        Err(_) => Err(Halt::Memory),
    }
}

// Parts with the tables of these names added, of which the first has this place, one after another, unless one before has stopped in
// another job.
fn add_names<S: Source>(
    work: &AddWork<S>,
    parts: Parts,
    names: &[Name],
    place: u64,
) -> Result<Parts, Halt>
    ensures { AddsBehind (S.bytes work.now.source.now) parts names.now result }
{
    let mut added = parts;
    let mut place = place;
    for name in names {
        if work.stopped.is_before(place) {
            // Nobody looks at what this job gives: a job before it stopped, and that one decides.
            return Err(Halt::Memory);
        }
        added = match add_name(work.alloc, work.source, added, name) {
            Ok(more) => more,
            Err(halt) => {
                work.stopped.at(place);
                return Err(halt);
            }
        };
        place = place.saturating_add(1);
    }
    Ok(added)
}

// The sum of two groups of names, of which those of the second come after those of the first.
fn joined(first: Result<Parts, Halt>, second: Result<Parts, Halt>) -> Result<Parts, Halt>
    ensures { JoinsSums first second result }
{
    let first = match first {
        Ok(first) => first,
        Err(halt) => return Err(halt),
    };
    let second = match second {
        Ok(second) => second,
        Err(halt) => return Err(halt),
    };
    match first.join(second) {
        Ok(both) => Ok(both),
        Err(_) => Err(Halt::Memory),
    }
}

// Parts with the table of this name added.
fn add_name<S: Source>(alloc: Global, source: &S, parts: Parts, name: &Name) -> Result<Parts, Halt>
    ensures sum { IfOk result (TakesName (S.bytes source.now) name.now parts) }
    ensures stop { IfErr result (OfStop (StopsAdding (S.bytes source.now)
        (HasOtherSchema parts.schema parts.unit) name.now)) }
{
    let text = match read_table(alloc, source, name) {
        Ok(text) => text,
        Err(halt) => return Err(halt),
    };
    match parts.add(alloc, &text) {
        Ok(more) => Ok(more),
        Err(fault) => Err(halt_of_part(alloc, name, fault)),
    }
}

// The text that the name stands for, unless it begins as no table does, or is too long for one.
fn read_table<S: Source>(alloc: Global, source: &S, name: &Name) -> Result<Vec<u8>, Halt>
    ensures text { IfOk result (λ text. IsText (S.bytes source.now) name.now text.items) }
    ensures stop { IfErr result (OfStop (IsNoTable (S.bytes source.now) name.now)) }
{
    let text = match source.read_begun(name, MOST_ADDED + 1, FIRST) {
        Ok(text) => text,
        Err(fault) => return Err(unread(alloc, name, fault)),
    };
    if begins_otherwise(&text, Some(FIRST)) || text.len() as u64 > MOST_ADDED {
        return Err(Halt::of_name(alloc, name, Fault::NotTable.code()));
    }
    Ok(text)
}

// The table of this name was not added.
fn halt_of_part(alloc: Global, name: &Name, fault: PartFault) -> Halt
    ensures { OfStop (SaysPart name.now fault) result }
{
    match fault {
        PartFault::NotTable => Halt::of_name(alloc, name, Fault::NotTable.code()),
        PartFault::OtherColumns => Halt::of_name(alloc, name, Fault::OtherColumns.code()),
        // Sums are of fewer tables and rows than would be too many.
        PartFault::Memory | PartFault::TooMany => Halt::Memory,
    }
}
