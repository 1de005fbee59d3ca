//! The asynchronous spans of one key.
ghost use Rattle.std.specs.Prelude.{◌≡◌, [], None, IfOk, OnOk, OnErr};
ghost use Rattle.span_keyed_tracks.specs.{IsTime, Async.{HasStepRoom, async_matched, async_spans, async_totals}, AsyncKept.{EndsLast, with_begin, with_point}, Fault.{Answers, TakesNoMemory, refusal_of}, Last.last_of};

use super::AsyncTotals;
use crate::fault::TrackFault;
use span_event::Fault;
use std::alloc::Global;
use std::marker::Model;

#[derive(Drop)]
pub(crate) struct KeySpans {
    opened: Vec<i64>,
    closed: u32,
    total: u128,
    longest: u64,
    points: u32,
}

impl Model for KeySpans {
    ghost use Rattle.span_keyed_tracks.specs.{Async.AsyncSpans, AsyncKept.AreBounded};

    ghost Value = { AsyncSpans };

    ghost view = { λ s. record { opened = s.opened.items; closed = s.closed; total = s.total; longest = s.longest; points = s.points } };

    ghost invariant = { λ s. AreBounded
        (record { opened = s.opened.items; closed = s.closed; total = s.total; longest = s.longest; points = s.points }) };
}

impl KeySpans {
    pub(crate) fn new(alloc: Global) -> KeySpans
        ensures { result ≡ async_spans [] }
    {
        KeySpans {
            opened: Vec::new(alloc),
            closed: 0,
            total: 0,
            longest: 0,
            points: 0,
        }
    }

    pub(crate) fn begin(&mut self, ts: i64) -> Result<(), TrackFault>
        requires room { HasStepRoom self.old }
        requires in_time { IsTime ts }
        ensures refusal { Answers result None }
        ensures ok { OnOk result (self.new ≡ with_begin self.old ts) }
        ensures err { OnErr result (self.new ≡ self.old) }
    {
        self.opened.reserve(1).map_err(|_| TrackFault::Memory)?;
        self.opened.push_reserved(ts);
        Ok(())
    }

    pub(crate) fn end(&mut self, ts: i64) -> Result<u64, TrackFault>
        requires in_time { IsTime ts }
        ensures refusal { Answers result (refusal_of (async_matched (last_of self.old.opened) ts)) }
        ensures ends { IfOk result (λ length. EndsLast self.old ts length self.new) }
        ensures err { OnErr result (self.new ≡ self.old) }
        ensures memory { TakesNoMemory result }
    {
        let Some(begin) = self.opened.last() else {
            return Err(TrackFault::Refused(Fault::NoOpenAsync.code()));
        };
        let begin = *begin;
        if ts < begin {
            return Err(TrackFault::Refused(Fault::EndBeforeBegin.code()));
        }
        let length = ts.abs_diff(begin);
        self.opened.pop();
        self.closed += 1;
        self.total += u128::from(length);
        self.longest = self.longest.max(length);
        Ok(length)
    }

    pub(crate) fn point(&mut self)
        requires room { HasStepRoom self.old }
        ensures { self.new ≡ with_point self.old }
    {
        self.points += 1;
    }

    pub(crate) fn longest(&self) -> u64
        ensures { result ≡ self.now.longest }
    {
        self.longest
    }

    pub(crate) fn totals(&self) -> AsyncTotals
        ensures { result ≡ async_totals self.now }
    {
        AsyncTotals {
            closed: self.closed,
            total: self.total,
            unclosed: self.opened.len() as u32,
            points: self.points,
        }
    }
}
