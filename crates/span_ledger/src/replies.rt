//! The replies to queries, from the tracks and the counts of a journal.
ghost use Rattle.std.specs.Prelude.{◌≡◌, Some, None, IfOk};
ghost use Rattle.span_ledger.specs.{Gives, MetaStandsFor, names_in, number_in, reply_to, process_reply, thread_names_reply, count_row, TrackRows.{track_reply, number_reply}, Tracked.{FollowsJournal, track_at}};

use crate::thread_tracks::ThreadTracks;
use crate::tracks::Tracks;
use span_event::{Text, Thread};
use span_journal::{BoxedReply, CountRow, Entry, Query, Reply, copy_of};
use span_keyed_tracks::MetaTrack;
use std::alloc::{AllocError, Global};

// The reply to a query that comes after the entries of `journal`.
pub(crate) fn boxed_reply_to(
    alloc: Global,
    journal: &[Entry],
    counts: CountRow,
    tracks: &Tracks,
    query: &Query,
) -> Result<BoxedReply, AllocError>
    requires follows { FollowsJournal journal.now tracks.now }
    requires counted { counts ≡ count_row journal.now }
    ensures { IfOk result (λ reply. reply ≡ reply_to journal.now query.now) }
{
    let reply = reply_to(alloc, journal, counts, tracks, query)?;
    BoxedReply::new(alloc, reply)
}

fn reply_to(
    alloc: Global,
    journal: &[Entry],
    counts: CountRow,
    tracks: &Tracks,
    query: &Query,
) -> Result<Reply, AllocError>
    requires follows { FollowsJournal journal.now tracks.now }
    requires counted { counts ≡ count_row journal.now }
    ensures { IfOk result (λ reply. reply ≡ reply_to journal.now query.now) }
{
    match query {
        Query::Thread { pid, tid } => Ok(thread_reply(
            &tracks.phases.spans,
            &Thread {
                pid: *pid,
                tid: *tid,
            },
        )),
        Query::Name { pid, tid, name } => Ok(name_reply(
            &tracks.phases.spans,
            &Thread {
                pid: *pid,
                tid: *tid,
            },
            name,
        )),
        Query::AsyncOf(key) => Ok(Reply::Async(tracks.phases.asynchronous.of(key))),
        Query::FlowOf(key) => Ok(Reply::Flow(tracks.phases.flows.of(key))),
        Query::Series(key) => Ok(Reply::Series(tracks.phases.counters.of(key))),
        Query::NamesOf { pid, tid: None } => process_names(alloc, &tracks.phases.meta, *pid),
        Query::NamesOf {
            pid,
            tid: Some(tid),
        } => thread_names(alloc, &tracks.phases.meta, *pid, *tid),
        Query::Counts => Ok(Reply::Counts(counts)),
    }
}

fn thread_reply(spans: &ThreadTracks, thread: &Thread) -> Reply
    ensures { result ≡ track_reply (track_at spans.now.threads thread.now) }
{
    let (unclosed, busy, last) = match spans.threads.get(thread) {
        Some(track) => {
            let track = track.as_track();
            (track.depth(), track.busy(), track.last_time())
        }
        None => (0, 0, None),
    };
    Reply::Thread {
        unclosed,
        busy,
        last,
    }
}

// A name without a number is that of no span.
fn name_reply(spans: &ThreadTracks, thread: &Thread, name: &Text) -> Reply
    ensures { result ≡ number_reply
        (track_at spans.now.threads thread.now) (number_in spans.now.names name.now) }
{
    let Some(number) = spans.names.find(name) else {
        return Reply::Name {
            count: 0,
            total: 0,
            self_time: 0,
        };
    };
    let (count, total, self_time) = match spans.threads.get(thread) {
        Some(track) => {
            let track = track.as_track();
            let totals = track.total_of(number);
            (totals.count, totals.total, track.self_of(number))
        }
        None => (0, 0, 0),
    };
    Reply::Name {
        count,
        total,
        self_time,
    }
}

fn process_names(alloc: Global, track: &MetaTrack, pid: i64) -> Result<Reply, AllocError>
    ensures { IfOk result (λ reply. Gives MetaStandsFor track.now
        (λ es. process_reply (names_in es (pid, None))) reply) }
{
    let names = track.process_of(pid);
    let name = copy_of(alloc, names.name)?;
    let labels = copy_of(alloc, names.labels)?;
    Ok(Reply::Names {
        name,
        labels,
        sort_index: names.sort_index,
    })
}

fn thread_names(alloc: Global, track: &MetaTrack, pid: i64, tid: i64) -> Result<Reply, AllocError>
    ensures { IfOk result (λ reply. Gives MetaStandsFor track.now
        (λ es. thread_names_reply (names_in es (pid, Some tid))) reply) }
{
    let names = track.thread_of(pid, tid);
    let name = copy_of(alloc, names.name)?;
    Ok(Reply::Names {
        name,
        labels: None,
        sort_index: names.sort_index,
    })
}
