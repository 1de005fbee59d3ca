//! The rows of processes, of threads and of their names, from the tracks.
ghost use Rattle.std.specs.Prelude.{◌≡◌, ◌++◌, IfOk, OnOk, flat_map, nat_eq, option_copied, option_and_then, slice_get};
ghost use Rattle.span_ledger.specs.{text_cmp, ascending, names_of, process_row, process_rows, thread_row, thread_rows, thread_span_rows, TrackRows.{track_row, track_span_row, span_rows_of_track, track_span_rows, closed_names}, Tracked.FollowsJournal};

use crate::thread_tracks::ThreadTracks;
use crate::tracks::Tracks;
use span_event::{Text, Thread};
use span_journal::{Entry, ProcessRow, SpanRow, ThreadRow, copy_of};
use span_names::Names;
use span_track::ThreadTrack;
use std::alloc::{AllocError, Global};
use std::collections::BTreeSet;

// The rows of the processes of a journal, which is what the tracks follow.
pub(crate) fn process_rows(
    alloc: Global,
    journal: &[Entry],
    tracks: &Tracks,
) -> Result<Vec<ProcessRow>, AllocError>
    requires { FollowsJournal journal.now tracks.now }
    ensures { IfOk result (λ rows. rows.items ≡ process_rows journal.now) }
{
    let mut rows = Vec::new(alloc);
    for pid in &tracks.listed.ordered_processes(alloc)? {
        rows.push(process_row(alloc, journal, tracks, *pid)?)?;
    }
    Ok(rows)
}

pub(crate) fn process_row(
    alloc: Global,
    journal: &[Entry],
    tracks: &Tracks,
    pid: i64,
) -> Result<ProcessRow, AllocError>
    requires { FollowsJournal journal.now tracks.now }
    ensures { IfOk result (λ row. row ≡ process_row journal.now pid) }
{
    let name = copy_of(alloc, tracks.phases.meta.process_of(pid).name)?;
    Ok(ProcessRow { pid, name })
}

// The rows of its threads.
pub(crate) fn thread_rows(
    alloc: Global,
    journal: &[Entry],
    tracks: &Tracks,
) -> Result<Vec<ThreadRow>, AllocError>
    requires { FollowsJournal journal.now tracks.now }
    ensures { IfOk result (λ rows. rows.items ≡ thread_rows journal.now) }
{
    let mut rows = Vec::new(alloc);
    for thread in &tracks.listed.ordered_threads(alloc)? {
        rows.push(thread_row(alloc, journal, tracks, thread)?)?;
    }
    Ok(rows)
}

pub(crate) fn thread_row(
    alloc: Global,
    journal: &[Entry],
    tracks: &Tracks,
    thread: &Thread,
) -> Result<ThreadRow, AllocError>
    requires { FollowsJournal journal.now tracks.now }
    ensures { IfOk result (λ row. row ≡ thread_row journal.now thread.now) }
{
    let names = tracks.phases.meta.thread_of(thread.pid, thread.tid);
    let name = copy_of(alloc, names.name)?;
    Ok(named_row(&tracks.phases.spans, thread, name))
}

// The row of a thread that has this name.
fn named_row(spans: &ThreadTracks, thread: &Thread, name: Option<Text>) -> ThreadRow
    ensures { result ≡ track_row spans.now.threads thread.now name }
{
    let (unclosed, busy) = match spans.threads.get(thread) {
        Some(track) => {
            let track = track.as_track();
            (track.depth(), track.busy())
        }
        None => (0, 0),
    };
    ThreadRow {
        pid: thread.pid,
        tid: thread.tid,
        name,
        unclosed,
        busy,
    }
}

pub(crate) fn span_rows(alloc: Global, tracks: &Tracks) -> Result<Vec<SpanRow>, AllocError>
    ensures { IfOk result (λ rows. rows.items
        ≡ flat_map (track_span_rows tracks.now.phases.spans) tracks.now.listed) }
{
    let mut rows = Vec::new(alloc);
    for thread in &tracks.listed.ordered_threads(alloc)? {
        add_span_rows(alloc, &tracks.phases.spans, thread, &mut rows)?;
    }
    Ok(rows)
}

// The rows of the names of one thread.
pub(crate) fn thread_span_rows(
    alloc: Global,
    journal: &[Entry],
    tracks: &Tracks,
    thread: &Thread,
) -> Result<Vec<SpanRow>, AllocError>
    requires { FollowsJournal journal.now tracks.now }
    ensures { IfOk result (λ rows. rows.items ≡ thread_span_rows journal.now thread.now) }
{
    let mut rows = Vec::new(alloc);
    add_span_rows(alloc, &tracks.phases.spans, thread, &mut rows)?;
    Ok(rows)
}

// Adds the rows of the names of one thread, if it has a track.
fn add_span_rows(
    alloc: Global,
    spans: &ThreadTracks,
    thread: &Thread,
    rows: &mut Vec<SpanRow>,
) -> Result<(), AllocError>
    ensures { OnOk result (rows.new.items
        ≡ rows.old.items ++ track_span_rows spans.now thread.now) }
{
    match spans.threads.get(thread) {
        Some(track) => add_rows_of_track(alloc, &spans.names, thread, track.as_track(), rows),
        None => Ok(()),
    }
}

fn add_rows_of_track(
    alloc: Global,
    names: &Names,
    thread: &Thread,
    track: &ThreadTrack,
    rows: &mut Vec<SpanRow>,
) -> Result<(), AllocError>
    ensures { OnOk result (rows.new.items
        ≡ rows.old.items ++ span_rows_of_track names.now thread.now track.now) }
{
    let found = names_of(alloc, names, track)?;
    if rows.is_empty() {
        rows.reserve_exact(found.len())?;
    }
    for name in found {
        rows.push(span_row(names, thread, track, name))?;
    }
    Ok(())
}

// The names of the closed spans, each once, in byte order.
fn names_of(alloc: Global, names: &Names, track: &ThreadTrack) -> Result<BTreeSet<Text>, AllocError>
    ensures { IfOk result (λ found. found.keys
        ≡ ascending text_cmp (closed_names names.now track.now)) }
{
    let mut found = BTreeSet::new(alloc);
    for i in 0..track.name_count() {
        if let Some(name) = closed_name(names, track, i) {
            let copy = name.try_clone(alloc)?;
            found.insert(copy)?;
        }
    }
    Ok(found)
}

// A name of the closed spans, in the order in which each first closed.
fn closed_name<'a>(names: &'a Names, track: &ThreadTrack, i: u32) -> Option<&'a Text>
    ensures { option_copied result
        ≡ option_and_then (slice_get names.now) (slice_get (names_of nat_eq track.now.closed) i) }
{
    let number = track.name(i)?;
    names.text_of(number)
}

// The number of the name is looked up once more, so that sorting moves texts alone.
fn span_row(names: &Names, thread: &Thread, track: &ThreadTrack, name: Text) -> SpanRow
    ensures { result ≡ track_span_row names.now thread.now track.now name }
{
    let number = names.find(&name).unwrap_or(0);
    let totals = track.total_of(number);
    SpanRow {
        pid: thread.pid,
        tid: thread.tid,
        name,
        count: totals.count,
        total: totals.total,
        self_time: track.self_of(number),
    }
}
