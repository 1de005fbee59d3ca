//! The closed spans of a thread, with the texts of their names, and with their self times.
ghost use Rattle.std.specs.Prelude.{◌≡◌, map, IfOk};
ghost use Rattle.span_ledger.specs.{AreClosed, span_of, closed_spans, self_times, timed_spans, with_self_times, thread_events, Named.{AreThreadSpans, named_span, named_spans}, Tracked.FollowsJournal};

use crate::tracks::Tracks;
use span_event::{Text, Thread};
use span_journal::Entry;
use span_names::Names;
use span_track::{ClosedSpan, ThreadTrack};
use std::alloc::{AllocError, Global};
use std::marker::Model;

/// A closed span of a thread with the text of its name.
#[derive(Drop)]
pub struct NamedSpan<'a> {
    pub name: &'a Text,
    pub span: &'a ClosedSpan,
}

impl<'a> Model for NamedSpan<'a> {
    ghost use Rattle.span_ledger.specs.{Bytes, Span};

    ghost Value = { Span Bytes };

    ghost view = { λ n. record {
      name = n.name.now;
      start = n.span.now.start;
      until = n.span.now.until;
      at = n.span.now.at;
      args = n.span.now.args;
    } };
}

impl<'a> NamedSpan<'a> {
    fn timed(&self, self_time: u64) -> TimedSpan<'a>
        ensures { result ≡ record { span = self.now; self_time = self_time } }
    {
        TimedSpan {
            name: self.name,
            span: self.span,
            self_time,
        }
    }
}

/// A closed span of a thread with the text of its name and its self time, in ticks.
#[derive(Drop)]
pub struct TimedSpan<'a> {
    pub name: &'a Text,
    pub span: &'a ClosedSpan,
    pub self_time: u64,
}

impl<'a> Model for TimedSpan<'a> {
    ghost use Rattle.span_ledger.specs.{Timed};

    ghost Value = { Timed };

    ghost view = { λ t. record {
      span = record {
        name = t.name.now;
        start = t.span.now.start;
        until = t.span.now.until;
        at = t.span.now.at;
        args = t.span.now.args;
      };
      self_time = t.self_time;
    } };
}

// The closed spans of a thread, in the order of the events that closed them.
pub(crate) fn closed_spans<'a>(
    alloc: Global,
    journal: &[Entry],
    tracks: &'a Tracks,
    thread: &Thread,
) -> Result<Vec<NamedSpan<'a>>, AllocError>
    requires { FollowsJournal journal.now tracks.now }
    ensures spans { IfOk result (λ spans. spans.items
        ≡ closed_spans (thread_events thread.now journal.now)) }
    ensures are { IfOk result (λ spans. AreThreadSpans spans.items) }
{
    let spans = &tracks.phases.spans;
    match spans.threads.get(thread) {
        Some(track) => named_spans(alloc, &spans.names, track.as_track()),
        None => Ok(Vec::new(alloc)),
    }
}

fn named_spans<'a>(
    alloc: Global,
    names: &'a Names,
    track: &'a ThreadTrack,
) -> Result<Vec<NamedSpan<'a>>, AllocError>
    ensures spans { IfOk result (λ spans. spans.items ≡ named_spans names.now track.now.closed) }
    ensures closed { AreClosed track.now.closed }
{
    let spans = track.spans();
    let mut named = Vec::with_capacity(alloc, spans.len())?;
    for span in spans {
        if let Some(span) = named_span(names, span) {
            named.push(span)?;
        }
    }
    Ok(named)
}

fn named_span<'a>(names: &'a Names, span: &'a ClosedSpan) -> Option<NamedSpan<'a>>
    ensures { result ≡ named_span names.now (span_of span.now) }
{
    match names.text_of(span.name) {
        Some(name) => Some(NamedSpan { name, span }),
        None => None,
    }
}

// The closed spans of a thread with their self times, in the order of the events that closed them.
pub(crate) fn timed_spans<'a>(
    alloc: Global,
    journal: &[Entry],
    tracks: &'a Tracks,
    thread: &Thread,
) -> Result<Vec<TimedSpan<'a>>, AllocError>
    requires { FollowsJournal journal.now tracks.now }
    ensures spans { IfOk result (λ spans. spans.items ≡ timed_spans journal.now thread.now) }
    ensures are { IfOk result (λ spans. AreThreadSpans (map (λ timed. timed.span) spans.items)) }
{
    let spans = closed_spans(alloc, journal, tracks, thread)?;
    let times = self_times(alloc, journal, tracks, thread)?;
    with_self_times(alloc, &spans, &times)
}

// The self times of the closed spans of a thread.
fn self_times(
    alloc: Global,
    journal: &[Entry],
    tracks: &Tracks,
    thread: &Thread,
) -> Result<Vec<u64>, AllocError>
    requires { FollowsJournal journal.now tracks.now }
    ensures { IfOk result (λ times. times.items
        ≡ self_times (closed_spans (thread_events thread.now journal.now))) }
{
    let spans = &tracks.phases.spans;
    match spans.threads.get(thread) {
        Some(track) => track.as_track().self_times(alloc),
        None => Ok(Vec::new(alloc)),
    }
}

// Each span with its self time.
fn with_self_times<'a>(
    alloc: Global,
    spans: &[NamedSpan<'a>],
    times: &[u64],
) -> Result<Vec<TimedSpan<'a>>, AllocError>
    requires { times.now ≡ self_times spans.now }
    ensures { IfOk result (λ timed. timed.items ≡ with_self_times spans.now) }
{
    let mut timed = Vec::with_capacity(alloc, spans.len())?;
    for i in 0..spans.len() {
        timed.push(spans[i].timed(times[i]))?;
    }
    Ok(timed)
}
