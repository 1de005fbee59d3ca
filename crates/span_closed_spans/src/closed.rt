//! The closed spans of a thread, with the totals of their names and the division of time among them.
ghost use Rattle.std.specs.{List.count_by, Prelude.{◌≡◌, ◌≢◌, ◌+◌, ◌<◌, ◌≤◌, ◌*◌, ◌-◌, ◌^◌, ℕ, [], ◌∷◌, ◌++◌, ◌≤ℤ◌, List, length, map, take, nat_eq, slice_get, vec_len, vec_capacity, option_copied, All, IfSome, IfOk, OnOk, OnErr}};
ghost use Rattle.span_closed_spans.specs.{Gives, self_of, self_time, busy_time, names_of, span_of, CanJoin, IsInTime, AreClosed, lasts, AreSegments, HasSegments, HasEnds, Totals.total_for};

use crate::name_totals::{NameTotal, NameTotals};
use span_event::distance;
use span_self_time::{ClosedSpan, Division, Segment};
use std::alloc::{AllocError, Global};
use std::marker::Model;

/// Closed spans in the order of the events that closed them.
#[derive(Drop)]
pub struct ClosedSpans {
    list: Vec<ClosedSpan>,
    totals: NameTotals,
    division: Division,
    alloc: Global,
}

impl Model for ClosedSpans {
    ghost use Rattle.std.specs.Prelude.{List, map, ℕ};
    ghost use Rattle.span_closed_spans.specs.{Span, span_of, AreClosed, Divides, Totals.AreTotals, TotalsKept.entries_of};

    ghost Value = { List (Span ℕ) };

    ghost view = { λ c. map span_of c.list.items };

    ghost invariant = { λ c. AreClosed (map span_of c.list.items) × AreTotals (entries_of c.totals) (map span_of c.list.items)
        × Divides (map span_of c.list.items) c.division };
}

impl ClosedSpans {
    /// No spans. Takes no memory.
    pub fn new(alloc: Global) -> ClosedSpans
        ensures { result ≡ [] }
    {
        ClosedSpans {
            list: Vec::new(alloc),
            totals: NameTotals::Empty,
            division: Division::new(),
            alloc,
        }
    }

    /// The spans, in the order in which they were added.
    pub fn as_slice(&self) -> &[ClosedSpan]
        ensures spans { map span_of result.now ≡ self.now }
        ensures closed { AreClosed self.now }
    {
        &self.list
    }

    /// One more span, which takes the ticks that are its own from the others. Where memory is refused, no reader sees a change.
    pub fn add(&mut self, span: ClosedSpan) -> Result<(), AllocError>
        requires few { length self.old + 1 < 2 ^ 32 }
        requires forward { span.start ≤ℤ span.until }
        requires in_time { IsInTime (span_of span) }
        requires apart { All (λ s. s.at ≢ span.at) self.old }
        ensures ok { OnOk result (self.new ≡ self.old ++ span_of span ∷ []) }
        ensures err { OnErr result (self.new ≡ self.old) }
    {
        reserve_one(&mut self.list)?;
        self.totals.reserve(self.alloc)?;
        self.division.add(&span, &self.list, self.alloc)?;
        let length = distance(span.start, span.until);
        self.totals.add_span(span.name, length);
        self.list.push_reserved(span);
        Ok(())
    }

    /// More spans, in this order, each of which takes the ticks that are its own from the others. Where memory is refused,
    /// no reader sees a change, and none of them is added. Two or more cost a copy of the totals and of the division.
    pub fn add_all(&mut self, spans: Vec<ClosedSpan>) -> Result<(), AllocError>
        requires { CanJoin self.old (map span_of spans.items) }
        ensures ok { OnOk result (self.new ≡ self.old ++ map span_of spans.items) }
        ensures err { OnErr result (self.new ≡ self.old) }
    {
        let count = self.list.len();
        if spans.len() <= 1 {
            return self.add_each(spans);
        }
        let totals = self.totals.try_clone(self.alloc)?;
        let division = self.division.try_clone(self.alloc)?;
        if let Err(refused) = self.add_each(spans) {
            self.list.truncate(count);
            self.totals = totals;
            self.division = division;
            return Err(refused);
        }
        Ok(())
    }

    // One span after the other. Where memory is refused for one, those before it stay.
    fn add_each(&mut self, spans: Vec<ClosedSpan>) -> Result<(), AllocError>
        requires { AreClosed (self.old ++ map span_of spans.items) }
        ensures ok { OnOk result (self.new ≡ self.old ++ map span_of spans.items) }
        ensures err { OnErr result ((n : ℕ) × (n < length spans.items)
            × (self.new ≡ self.old ++ map span_of (take n spans.items))) }
    {
        for span in spans {
            self.add(span)?;
        }
        Ok(())
    }

    /// How many names the spans have.
    pub fn name_count(&self) -> u32
        ensures { result ≡ length (names_of nat_eq self.now) }
    {
        self.totals.count() as u32
    }

    /// A name of the spans, in the order in which each was first added, counted from 0; None from the number of names on.
    pub fn name(&self, i: u32) -> Option<u32>
        ensures { result ≡ slice_get (names_of nat_eq self.now) i }
    {
        self.totals.name(i as usize)
    }

    /// The number and the lengths of the spans of one name.
    pub fn total_of(&self, name: u32) -> NameTotal
        ensures { result ≡ total_for self.now name }
    {
        self.totals.of(name)
    }

    /// The ticks that belong to the spans of one name, as no span that ranks above covers them.
    pub fn self_of(&self, name: u32) -> u64
        ensures { result ≡ self_of nat_eq name self.now }
    {
        self.division.self_of(name)
    }

    /// The ticks that belong to each span, as no span that ranks above covers them, in the order in which the spans were added.
    pub fn self_times(&self, alloc: Global) -> Result<Vec<u64>, AllocError>
        ensures { IfOk result (λ times. times.items ≡ map (self_time self.now) self.now) }
    {
        self.division.self_times(&self.list, alloc)
    }

    /// The ticks that at least one span covers.
    pub fn busy(&self) -> u64
        ensures { result ≡ busy_time self.now }
    {
        self.division.busy()
    }

    /// How many segments of time there are: stretches, each as long as can be, in which one span ranks above all others that cover it.
    pub fn segment_count(&self) -> u64
        ensures count { Gives AreSegments self.now length result }
        ensures segments { HasSegments self.now }
        ensures bound { result ≤ 2 * count_by lasts self.now - 1 }
    {
        self.division.segment_count()
    }

    /// A segment of time, in ascending order, counted from 0; None from the number of segments on.
    pub fn segment(&self, i: u64) -> Option<&Segment>
        ensures segment { Gives AreSegments self.now (λ segments. slice_get segments i)
            (option_copied result) }
        ensures ends { IfSome (option_copied result) (HasEnds self.now) }
    {
        self.division.segment(i)
    }
}

// Makes room for one more span; a list of one has no more.
fn reserve_one(list: &mut Vec<ClosedSpan>) -> Result<(), AllocError>
    ensures items { list.new.items ≡ list.old.items }
    ensures room { OnOk result (vec_len list.new < vec_capacity list.new) }
{
    if list.is_empty() {
        list.reserve_exact(1)
    } else {
        list.reserve(1)
    }
}

#[cfg(test)]
mod tests;
