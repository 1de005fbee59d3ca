//! The threads of a collection: one worker for each file, and the main seat, which asks while they run.
ghost use Rattle.std.specs.Prelude.{◌≡◌, length, vec_capacity, All, IfSome, IfOk};
ghost use Rattle.span_collect.specs.{doc, IsSeatOf, Work.{IsNewSeat, IsWorked, IsWorkerOf, HasMet, IsReadyToWork}};

use crate::files::{FileEnd, Input};
use crate::gate::Gate;
use crate::queries::{Asked, ask_all};
use crate::reading_places::{PLACES, ReadingPlaces};
use crate::worker::work;
use span_journal::Query;
use span_read::{Format, Reading};
use span_share::{Seat, Share};
use std::alloc::{AllocError, Global};
use std::snapshot::Snapshot;
use std::sync::Wait;
use std::thread;
use std::thread::{Promise, PromisedHandle, Scope, Threads};

/// How many bytes of a file one entry is reckoned to come of. Events of clang, node and Chrome mostly have 150 to 200.
const BYTES_OF_ENTRY: usize = 192;

// What the threads of a collection have in common, beside the share.
#[derive(Drop)]
struct Workplace<'s, G> {
    gate: &'s G,
    places: &'s ReadingPlaces,
    reading: Reading,
    workers: u32,
    // For how many entries room is made.
    expected: u32,
}

// What a worker's thread promises of its end and its seat.
#[derive(Drop)]
struct Worked {
    format: Format,
    share: Snapshot<Share>,
    file: Snapshot<Input>,
}

impl Promise<(FileEnd, Seat)> for Worked {
    ghost kept_by = { λ p r. IsWorked p.share.value (doc p.format p.file.value.bytes.items) r.0 r.1 };
}

// A seat for each file, in order; none where every number was given.
pub(crate) fn enrol_all<R: Wait>(
    rt: &R,
    alloc: Global,
    share: &Share,
    main: &mut Seat,
    count: usize,
) -> Result<Vec<Option<Seat>>, AllocError>
    requires { IsSeatOf share.now main.old }
    ensures same { main.new ≡ main.old }
    ensures count { IfOk result (λ seats. length seats.items ≡ count) }
    ensures new { IfOk result (λ seats.
        All (λ seat. IfSome seat (IsNewSeat share.now)) seats.items) }
{
    let mut seats = Vec::with_capacity(alloc, count)?;
    for _ in 0..count {
        seats.push_reserved(share.enrol(rt, main).ok());
    }
    Ok(seats)
}

// Starts the worker of one file. None where it has no seat, or no thread could be made.
fn start_worker<'s, E, G: Gate, R: Threads + Wait + Sync>(
    rt: &'s R,
    alloc: Global,
    scope: &Scope<'s, E>,
    share: &'s Share,
    workplace: &Workplace<'s, G>,
    worker: u32,
    file: &'s Input,
    seat: Option<Seat>,
) -> Option<PromisedHandle<(FileEnd, Seat), Worked>>
    requires { IfSome seat (IsNewSeat share.now) }
    ensures format { IfSome result (λ handle. handle.promise.format ≡ workplace.now.reading.format) }
    ensures share { IfSome result (λ handle. handle.promise.share.value ≡ share.now) }
    ensures file { IfSome result (λ handle. handle.promise.file.value ≡ file.now) }
{
    let seat = seat?;
    let gate = workplace.gate;
    let places = workplace.places;
    let reading = workplace.reading;
    let promise = Worked {
        format: reading.format,
        share: Snapshot::of(share),
        file: Snapshot::of(file),
    };
    scope
        .spawn_with(
            promise,
            move ||
                requires { IsNewSeat share.now seat }
                ensures { IsWorked share.entry.now
                    (doc reading.format file.entry.now.bytes.items) result.0 result.1 }
            {
                let mut seat = seat;
                let end = work(
                    rt, alloc, share, gate, places, worker, reading, file, &mut seat,
                );
                (end, seat)
            },
        )
        .ok()
}

// The worker of one file: a thread, or nothing but its seat, with which the calling thread works. None where there is none.
enum Worker {
    Thread(Option<PromisedHandle<(FileEnd, Seat), Worked>>),
    Here(Option<Seat>),
}

// Where no query is asked, the calling thread has nothing to do beside, so it is the first file's worker.
fn worker_of<'s, E, G: Gate, R: Threads + Wait + Sync>(
    rt: &'s R,
    alloc: Global,
    scope: &Scope<'s, E>,
    share: &'s Share,
    workplace: &Workplace<'s, G>,
    place: u32,
    asks: &[Query],
    file: &'s Input,
    seat: Option<Seat>,
) -> Worker
    requires { IfSome seat (IsNewSeat share.now) }
    ensures { IsWorkerOf workplace.now.reading.format share.now file.now result }
{
    if place == 0 && asks.is_empty() {
        return Worker::Here(seat);
    }
    Worker::Thread(start_worker(rt, alloc, scope, share, workplace, place, file, seat))
}

// How a worker's file ended, and its seat, if it has one.
fn finish<G: Gate, R: Threads + Wait + Sync>(
    rt: &R,
    alloc: Global,
    share: &Share,
    workplace: &Workplace<G>,
    place: u32,
    file: &Input,
    worker: Worker,
) -> Option<(FileEnd, Seat)>
    requires { IsWorkerOf workplace.now.reading.format share.now file.now worker }
    ensures { IfSome result (λ worked.
        IsWorked share.now (doc workplace.now.reading.format file.now.bytes.items) worked.0 worked.1) }
{
    match worker {
        Worker::Thread(handle) => Some(handle?.join(rt)),
        Worker::Here(seat) => {
            let mut seat = seat?;
            let (gate, places, reading) = (workplace.gate, workplace.places, workplace.reading);
            let end = work(
                rt, alloc, share, gate, places, place, reading, file, &mut seat,
            );
            Some((end, seat))
        }
    }
}

// Starts the last file's worker and, by itself, those of the other files; the innermost call makes room for the entries and asks
// the queries. Then waits for the one worker and meets its seat.
fn work_all<'s, E, G: Gate, R: Threads + Wait + Sync>(
    rt: &'s R,
    alloc: Global,
    scope: &Scope<'s, E>,
    share: &'s Share,
    workplace: &Workplace<'s, G>,
    files: &'s [Input],
    asks: &[Query],
    seats: &mut Vec<Option<Seat>>,
    main: &mut Seat,
    ends: &mut Vec<FileEnd>,
) -> Asked
    requires { IsReadyToWork share.now files.now seats.old.items main.old ends.old }
    ensures met { HasMet workplace.now.reading.format share.now files.now asks.now
        ends.new.items result main.new }
    ensures room { vec_capacity ends.new ≡ vec_capacity ends.old }
{
    let Some((file, others)) = files.split_last() else {
        // While the first files are read nobody has an entry to add. Where memory is refused, each entry makes its own room.
        let _ = share.reserve(rt, main, workplace.expected);
        return ask_all(
            rt,
            alloc,
            share,
            workplace.gate,
            workplace.workers,
            asks,
            main,
        );
    };
    let place = others.len() as u32;
    let seat = seats.pop().flatten();
    let worker = worker_of(rt, alloc, scope, share, workplace, place, asks, file, seat);
    let asked = work_all(
        rt, alloc, scope, share, workplace, others, asks, seats, main, ends,
    );
    let end = match finish(rt, alloc, share, workplace, place, file, worker) {
        Some((end, seat)) => {
            share.meet(main, seat);
            end
        }
        None => FileEnd::NotStarted,
    };
    ends.push_reserved(end);
    asked
}

// How many entries are reckoned to come of these files; none where all are read at once, which takes as much memory as it may: there
// the room is made later, entry by entry.
fn entries_expected(files: &[Input]) -> u32 {
    if files.len() <= PLACES {
        return 0;
    }
    let mut bytes: usize = 0;
    for file in files {
        bytes = bytes.saturating_add(file.bytes.len());
    }
    u32::try_from(bytes / BYTES_OF_ENTRY).unwrap_or(u32::MAX)
}

// Runs a worker for each file in one scope, and gives back the main seat, which has met them all.
pub(crate) fn run_workers<G: Gate, R: Threads + Wait + Sync>(
    rt: &R,
    alloc: Global,
    share: &Share,
    gate: &G,
    reading: Reading,
    files: &[Input],
    asks: &[Query],
    seats: Vec<Option<Seat>>,
    main: Seat,
    ends: Vec<FileEnd>,
) -> (Asked, Seat, Vec<FileEnd>)
    requires { IsReadyToWork share.now files.now seats.items main ends }
    ensures { HasMet reading.format share.now files.now asks.now result.2.items result.0 result.1 }
{
    let places = ReadingPlaces::new();
    let shared = &places;
    thread::scope(
        thread::scope_env(),
        rt,
        move |scope|
            requires { IsReadyToWork share.now files.now seats.items main ends }
            ensures { HasMet reading.format share.entry.now files.entry.now asks.entry.now
                result.2.items result.0 result.1 }
        {
            let mut seats = seats;
            let mut main = main;
            let mut ends = ends;
            let workplace = Workplace {
                gate,
                places: shared,
                reading,
                workers: files.len() as u32,
                expected: entries_expected(files),
            };
            let asked = work_all(
                rt, alloc, scope, share, &workplace, files, asks, &mut seats, &mut main, &mut ends,
            );
            (asked, main, ends)
        },
    )
}
