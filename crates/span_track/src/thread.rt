//! The track of one thread.
ghost use Rattle.std.specs.{List.count_by, Option.option_map, Prelude.{◌≡◌, nat_eq, ◌+◌, ◌*◌, ◌-◌, ◌<◌, ◌≤◌, ℕ, List, [], ◌∷◌, length, map, reverse, slice_get, vec_len, vec_capacity, Some, None, pos, ◌+ℤ◌, option_copied, IfSome, IfOk, OnOk, OnErr}};
ghost use Rattle.span_track.specs.{IsTime, greatest_time, Gives, Answers, lasts, AreSegments, HasSegments, HasEnds, Arguments, names_of, self_of, self_time, busy_time, span_of, AreClosed, total_for, Nesting.{ThreadEvent, began, ended, sealed, completed, closed_by, span_sealed, opener, later}, Thread.{AreMerged, StandsFor, TakesEvent, HasRoom, IsNext, IsSealTime, any_name, suits, goes_back, begin_refusal, end_refusal, merged_args}};

use crate::wanted::Wanted;
use span_closed_spans::{ClosedSpans, NameTotal};
use span_event::{Args, Fault, merge_args};
use span_keyed_tracks::TrackFault;
use span_self_time::{ClosedSpan, Segment};
use std::alloc::{AllocError, Global};
use std::marker::Model;

// A begin that no end has matched yet.
#[derive(Debug, Drop)]
struct OpenSpan {
    name: u32,
    ts: i64,
    at: u32,
    args: Args,
}

/// The open and closed spans of one thread, and how its time is divided among the closed ones. Times are ticks.
#[derive(Drop)]
pub struct ThreadTrack {
    opened: Vec<OpenSpan>,
    closed: ClosedSpans,
    last: Option<i64>,
    latest: Option<i64>,
}

impl Model for ThreadTrack {
    ghost use Rattle.std.specs.Prelude.{ℕ, map};
    ghost use Rattle.span_track.specs.Thread.{ThreadSpans};

    ghost Value = { ThreadSpans ℕ };

    ghost use Rattle.span_track.specs.Kept.{begin_of, IsSound};

    ghost view = { λ t. record {
      opened = map begin_of t.opened.items;
      closed = t.closed;
      last = t.last;
      latest = t.latest;
    } };

    ghost invariant = { λ t. IsSound (record {
      opened = map begin_of t.opened.items;
      closed = t.closed;
      last = t.last;
      latest = t.latest;
    }) };
}

impl ThreadTrack {
    /// The track of no events. Takes no memory.
    pub fn new(alloc: Global) -> ThreadTrack
        ensures { StandsFor result [] }
    {
        ThreadTrack {
            opened: Vec::new(alloc),
            closed: ClosedSpans::new(alloc),
            last: None,
            latest: None,
        }
    }

    /// A span begins. Answers the depth with it, or 22 where `ts` is below the time of the last begin, end or seal, as the format
    /// asks for rising times of a thread's begins and ends.
    pub fn begin_span(
        &mut self,
        name: u32,
        ts: i64,
        at: u32,
        args: &Args,
    ) -> Result<u32, TrackFault>
        requires room { HasRoom self.old }
        requires next { IsNext at self.old }
        requires in_time { IsTime ts }
        ensures refusal { Answers result (begin_refusal self.old ts) }
        ensures depth { IfOk result (λ depth. depth ≡ length self.new.opened) }
        ensures stands { OnOk result (TakesEvent self.old self.new
            (began (record { name = name; ts = ts; at = at; args = args.now }))) }
        ensures err { OnErr result (self.new ≡ self.old) }
    {
        if self.goes_back(ts) {
            return Err(TrackFault::Refused(Fault::TimeGoesBack.code()));
        }
        let args = args
            .try_clone(*self.opened.allocator())
            .map_err(|_| TrackFault::Memory)?;
        reserve_one(&mut self.opened).map_err(|_| TrackFault::Memory)?;
        self.opened.push_reserved(OpenSpan { name, ts, at, args });
        self.last = Some(ts);
        self.latest = later(self.latest, ts);
        Ok(self.opened.len() as u32)
    }

    /// The span that began last ends. Answers it with the arguments of both events, or 21 where no span is open,
    /// or 22 where `ts` is below the time of the last begin, end or seal, or 27 where the span has another name than is wanted.
    /// The ledger keeps the merged arguments itself, so it calls `end_refusal`, `merged_args` and `close_span` instead of this.
    pub fn end_span(
        &mut self,
        ts: i64,
        wanted: Wanted,
        args: &Args,
    ) -> Result<ClosedSpan, TrackFault>
        requires in_time { IsTime ts }
        ensures refusal { Answers result (end_refusal (suits wanted) self.old ts) }
        ensures span { IfOk result (λ span. (es : List (ThreadEvent ℕ)) → StandsFor self.old es
            → closed_by es (ended ts args.now) ≡ span_of span ∷ []) }
        ensures stands { OnOk result (TakesEvent self.old self.new (ended ts args.now)) }
        ensures err { OnErr result (self.new ≡ self.old) }
    {
        if let Some(number) = self.end_refusal(ts, wanted) {
            return Err(TrackFault::Refused(number));
        }
        let Some(begin) = self.opened.last() else {
            unreachable!();
        };
        let alloc = *self.opened.allocator();
        let merged = self.merged_args(args).map_err(|_| TrackFault::Memory)?;
        let copy = merged.try_clone(alloc).map_err(|_| TrackFault::Memory)?;
        let answer = closed_at(begin, ts, copy);
        match self.close_span(ts, merged) {
            Ok(_) => Ok(answer),
            Err(_) => Err(TrackFault::Memory),
        }
    }

    /// The span that began last ends, with the arguments that `merged_args` gave for those of the end; `end_refusal` gives no number.
    /// Answers the time of its begin.
    pub fn close_span(&mut self, ts: i64, merged: Args) -> Result<i64, AllocError>
        requires in_time { IsTime ts }
        requires taken { end_refusal any_name self.old ts ≡ None }
        requires merged { AreMerged self.old merged }
        ensures start { IfOk result (λ start. (es : List (ThreadEvent ℕ)) → StandsFor self.old es
            → option_map (λ begin. begin.ts) (opener es) ≡ Some start) }
        ensures stands { OnOk result ((args : Arguments) → merged ≡ merged_args self.old args
            → TakesEvent self.old self.new (ended ts args)) }
        ensures err { OnErr result (self.new ≡ self.old) }
    {
        let Some(last_open) = self.opened.last() else {
            unreachable!();
        };
        let start = last_open.ts;
        let span = closed_at(last_open, ts, merged);
        self.closed.add(span)?;
        self.opened.pop();
        self.last = Some(ts);
        self.latest = later(self.latest, ts);
        Ok(start)
    }

    /// All open spans end, the innermost first, each with the arguments of its begin. Answers how many they are, or 21 where no
    /// span is open, or 22 where `ts` is below the time of the last begin, end or seal.
    pub fn seal_all(&mut self, ts: i64) -> Result<u32, TrackFault>
        requires in_time { IsSealTime ts }
        ensures refusal { Answers result (end_refusal any_name self.old ts) }
        ensures spans { IfOk result (λ spans. spans ≡ length self.old.opened) }
        ensures stands { OnOk result (TakesEvent self.old self.new (sealed ts)) }
        ensures err { OnErr result (self.new ≡ self.old) }
    {
        if let Some(number) = self.end_refusal(ts, Wanted::Any) {
            return Err(TrackFault::Refused(number));
        }
        let spans = self.depth();
        let sealed = self.sealed_at(ts).map_err(|_| TrackFault::Memory)?;
        self.closed.add_all(sealed).map_err(|_| TrackFault::Memory)?;
        self.opened.clear();
        self.last = Some(ts);
        self.latest = later(self.latest, ts);
        Ok(spans)
    }

    // The spans that a seal closes, the innermost first.
    fn sealed_at(&self, ts: i64) -> Result<Vec<ClosedSpan>, AllocError>
        ensures { IfOk result (λ sealed. map span_of sealed.items
            ≡ map (λ begin. span_sealed begin ts) (reverse self.now.opened)) }
    {
        let alloc = *self.opened.allocator();
        let mut sealed = Vec::with_capacity(alloc, self.opened.len())?;
        for begin in &self.opened {
            sealed.push(closed_at(begin, ts, begin.args.try_clone(alloc)?))?;
        }
        sealed.reverse();
        Ok(sealed)
    }

    /// The arguments of the begin that the next end matches together with these, which are those of the end: of two of one name the
    /// end's. These alone, where no span is open.
    pub fn merged_args(&self, args: &Args) -> Result<Args, AllocError>
        ensures { IfOk result (λ merged. merged ≡ merged_args self.now args.now) }
    {
        let alloc = *self.opened.allocator();
        let Some(last_open) = self.opened.last() else {
            return args.try_clone(alloc);
        };
        merge_args(alloc, &last_open.args, args)
    }

    /// The number with which a begin at `ts` is refused: 22 where `ts` is below the time of the last begin, end or seal.
    /// None where only want of memory refuses it. Takes no memory.
    pub fn begin_refusal(&self, ts: i64) -> Option<u16>
        ensures { result ≡ begin_refusal self.now ts }
    {
        if self.goes_back(ts) {
            Some(Fault::TimeGoesBack.code())
        } else {
            None
        }
    }

    /// The number with which an end at `ts` is refused, and a seal, which wants any name: 21 where no span is open, then 22 as for
    /// a begin, then 27 where the innermost span has another name than is wanted. None where only want of memory refuses it.
    /// Takes no memory.
    pub fn end_refusal(&self, ts: i64, wanted: Wanted) -> Option<u16>
        ensures { result ≡ end_refusal (suits wanted) self.now ts }
    {
        let Some(innermost) = self.opened.last() else {
            return Some(Fault::NoOpenSpan.code());
        };
        if self.goes_back(ts) {
            return Some(Fault::TimeGoesBack.code());
        }
        if wanted.suits(innermost.name) {
            None
        } else {
            Some(Fault::NameDiffers.code())
        }
    }

    /// A whole span, of `dur` ticks from `ts` on, in any order of time. Only want of memory refuses it.
    pub fn complete(
        &mut self,
        name: u32,
        ts: i64,
        dur: u64,
        at: u32,
        args: &Args,
    ) -> Result<(), TrackFault>
        requires room { HasRoom self.old }
        requires next { IsNext at self.old }
        requires in_time { IsTime ts }
        requires lasts { dur ≤ greatest_time }
        ensures refusal { Answers result None }
        ensures stands { OnOk result (TakesEvent self.old self.new (completed (record {
          name = name;
          start = ts;
          until = ts +ℤ pos dur;
          at = at;
          args = args.now;
        }))) }
        ensures err { OnErr result (self.new ≡ self.old) }
    {
        let args = args
            .try_clone(*self.opened.allocator())
            .map_err(|_| TrackFault::Memory)?;
        let until = ts + dur as i64;
        self.closed
            .add(ClosedSpan {
                name,
                start: ts,
                until,
                at,
                args,
            })
            .map_err(|_| TrackFault::Memory)?;
        self.latest = later(self.latest, until);
        Ok(())
    }

    fn goes_back(&self, ts: i64) -> bool
        ensures { result ≡ goes_back ts self.now.last }
    {
        match self.last {
            Some(last) => ts < last,
            None => false,
        }
    }

    /// How many spans are open.
    pub fn depth(&self) -> u32
        ensures { result ≡ length self.now.opened }
    {
        self.opened.len() as u32
    }

    /// The time of the last begin, end or seal.
    pub fn last_time(&self) -> Option<i64>
        ensures { result ≡ self.now.last }
    {
        self.last
    }

    /// The latest time that the thread has seen, of its begins, ends, seals and closed spans. Takes no memory.
    pub fn latest(&self) -> Option<i64>
        ensures latest { result ≡ self.now.latest }
        ensures in_time { IfSome result IsSealTime }
    {
        self.latest
    }

    /// How many spans have closed.
    pub fn closed_count(&self) -> u32
        ensures { result ≡ length self.now.closed }
    {
        self.closed.as_slice().len() as u32
    }

    /// A closed span, in the order of the events that closed them, counted from 0.
    pub fn closed(&self, i: u32) -> Option<&ClosedSpan>
        ensures { option_map (λ span. span_of span.now) result ≡ slice_get self.now.closed i }
    {
        self.closed.as_slice().get(i as usize)
    }

    /// How many names the closed spans have.
    pub fn name_count(&self) -> u32
        ensures { result ≡ length (names_of nat_eq self.now.closed) }
    {
        self.closed.name_count()
    }

    /// A name of the closed spans, in the order in which each first closed, counted from 0.
    pub fn name(&self, i: u32) -> Option<u32>
        ensures { result ≡ slice_get (names_of nat_eq self.now.closed) i }
    {
        self.closed.name(i)
    }

    /// The number and the lengths of the closed spans of one name.
    pub fn total_of(&self, name: u32) -> NameTotal
        ensures { result ≡ total_for self.now.closed name }
    {
        self.closed.total_of(name)
    }

    /// The ticks that belong to the closed spans of one name, as no span that ranks above covers them.
    pub fn self_of(&self, name: u32) -> u64
        ensures { result ≡ self_of nat_eq name self.now.closed }
    {
        self.closed.self_of(name)
    }

    /// The ticks that belong to each closed span, as no span that ranks above covers them, in the order of the events that
    /// closed them.
    pub fn self_times(&self, alloc: Global) -> Result<Vec<u64>, AllocError>
        ensures { IfOk result (λ times. times.items
            ≡ map (self_time self.now.closed) self.now.closed) }
    {
        self.closed.self_times(alloc)
    }

    /// The ticks that at least one closed span covers.
    pub fn busy(&self) -> u64
        ensures { result ≡ busy_time self.now.closed }
    {
        self.closed.busy()
    }

    /// How many segments of time there are: stretches, each as long as can be, in which one closed span ranks above all others
    /// that cover it. With n closed spans of a tick or more there are at most 2n - 1, and none where n is 0. Takes no memory.
    pub fn segment_count(&self) -> u64
        ensures count { Gives AreSegments self.now.closed length result }
        ensures segments { HasSegments self.now.closed }
        ensures bound { result ≤ 2 * count_by lasts self.now.closed - 1 }
    {
        self.closed.segment_count()
    }

    /// A segment of time, in ascending order, counted from 0; None from the number of segments on. Takes no memory.
    pub fn segment(&self, i: u64) -> Option<&Segment>
        ensures segment { Gives AreSegments self.now.closed (λ segments. slice_get segments i)
            (option_copied result) }
        ensures ends { IfSome (option_copied result) (HasEnds self.now.closed) }
    {
        self.closed.segment(i)
    }

    /// The closed spans, in the order of the events that closed them. Takes no memory.
    pub fn spans(&self) -> &[ClosedSpan]
        ensures spans { map span_of result.now ≡ self.now.closed }
        ensures closed { AreClosed self.now.closed }
    {
        self.closed.as_slice()
    }
}

// Makes room for one more open span; a list of one has no more.
fn reserve_one(opened: &mut Vec<OpenSpan>) -> Result<(), AllocError>
    ensures items { opened.new.items ≡ opened.old.items }
    ensures room { OnOk result (vec_len opened.new < vec_capacity opened.new) }
{
    if opened.is_empty() {
        opened.reserve_exact(1)
    } else {
        opened.reserve(1)
    }
}

// The later of a time, if there is one, and another.
fn later(latest: Option<i64>, time: i64) -> Option<i64>
    ensures { result ≡ later latest time }
{
    match latest {
        Some(earlier) if earlier >= time => Some(earlier),
        _ => Some(time),
    }
}

// The span that ends at `until`.
fn closed_at(begin: &OpenSpan, until: i64, args: Args) -> ClosedSpan
    ensures { result ≡ record {
      name = begin.now.name;
      start = begin.now.ts;
      until = until;
      at = begin.now.at;
      args = args;
    } }
{
    ClosedSpan {
        name: begin.name,
        start: begin.ts,
        until,
        at: begin.at,
        args,
    }
}
