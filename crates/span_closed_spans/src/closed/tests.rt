ghost use Rattle.std.specs.Prelude.{◌≢◌, map, All, IsTrue, IfOk, OnOk};
ghost use Rattle.span_closed_spans.specs.{span_of, AreClosed, CanJoin};

use super::ClosedSpans;
use crate::walk::{busy_time, self_of, self_time};
use span_event::Args;
use span_self_time::{ClosedSpan, Division};
use std::alloc::Global;
use std::process::Abort;
use std::test::Fail;

const NAMES: u32 = 5;

// A span by its name, its start and its end.
type Given = (u32, i64, i64);

// The same spans, in the one of which each is searched for from the first on.
#[derive(Drop)]
struct Both {
    searched: ClosedSpans,
    stacked: ClosedSpans,
    alloc: Global,
}

fn are_opened_elsewhere(closed: &[ClosedSpan], at: u32) -> bool
    ensures { IsTrue result → All (λ span. span.at ≢ at) closed.now }
{
    closed.iter().all(|span| span.at != at)
}

fn is_new(spans: &ClosedSpans, at: u32) -> bool
    ensures { IsTrue result → All (λ span. span.at ≢ at) spans.now }
{
    are_opened_elsewhere(spans.as_slice(), at)
}

fn closed_span(alloc: Global, at: u32, given: &Given) -> ClosedSpan {
    let (name, start, until) = *given;
    ClosedSpan {
        name,
        start,
        until,
        at,
        args: Args::empty(alloc),
    }
}

fn add(rt: &impl Abort, spans: &mut ClosedSpans, span: ClosedSpan) -> Result<(), Fail> {
    assert!(rt; is_new(spans, span.at));
    assert!(rt; spans.list.len() < 1000);
    assert!(rt; 0 <= span.start && span.start <= span.until && span.until <= 1_000_000);
    spans.add(span)?;
    Ok(())
}

// Puts a span to those that are added at once to the others.
fn gather(
    rt: &impl Abort,
    spans: &ClosedSpans,
    gathered: &mut Vec<ClosedSpan>,
    span: ClosedSpan,
) -> Result<(), Fail>
    requires { CanJoin spans.now (map span_of gathered.old.items) }
    ensures { OnOk result (CanJoin spans.now (map span_of gathered.new.items)) }
{
    assert!(rt; is_new(spans, span.at));
    assert!(rt; are_opened_elsewhere(gathered, span.at));
    assert!(rt; spans.list.len() + gathered.len() < 1000);
    assert!(rt; 0 <= span.start);
    assert!(rt; span.start <= span.until);
    assert!(rt; span.until <= 1_000_000);
    gathered.push(span)?;
    Ok(())
}

// Each is opened at the next position.
fn gather_all(
    rt: &impl Abort,
    alloc: Global,
    spans: &ClosedSpans,
    given: &[Given],
) -> Result<Vec<ClosedSpan>, Fail>
    ensures { IfOk result (λ gathered. CanJoin spans.now (map span_of gathered.items)) }
{
    let mut gathered = Vec::new(alloc);
    let mut at = spans.as_slice().len() as u32;
    for span in given {
        gather(rt, spans, &mut gathered, closed_span(alloc, at, span))?;
        at = at.saturating_add(1);
    }
    Ok(gathered)
}

// Each of the spans has the time that a walk through it finds.
fn expect_self_times(rt: &impl Abort, spans: &[ClosedSpan], times: &[u64])
    requires { AreClosed (map span_of spans.now) }
{
    let mut i = 0usize;
    for span in spans {
        let own = self_time(spans, span);
        assert_eq!(rt; times.get(i).copied(), Some(own));
        i = i.saturating_add(1);
    }
    assert_eq!(rt; times.len(), i);
}

impl Both {
    fn new(alloc: Global) -> Both {
        let mut searched = ClosedSpans::new(alloc);
        searched.division = Division::searching();
        Both {
            searched,
            stacked: ClosedSpans::new(alloc),
            alloc,
        }
    }

    fn add(&mut self, rt: &impl Abort, at: u32, given: &Given) -> Result<(), Fail> {
        add(rt, &mut self.searched, closed_span(self.alloc, at, given))?;
        add(rt, &mut self.stacked, closed_span(self.alloc, at, given))?;
        self.expect_same(rt)
    }

    // Each is opened at the next position, from 0 on.
    fn add_all(&mut self, rt: &impl Abort, given: &[Given]) -> Result<(), Fail> {
        let mut at = 0u32;
        for span in given {
            self.add(rt, at, span)?;
            at = at.saturating_add(1);
        }
        Ok(())
    }

    fn add_at_once(&mut self, rt: &impl Abort, given: &[Given]) -> Result<(), Fail> {
        let gathered = gather_all(rt, self.alloc, &self.searched, given)?;
        self.searched.add_all(gathered)?;
        let gathered = gather_all(rt, self.alloc, &self.stacked, given)?;
        self.stacked.add_all(gathered)?;
        self.expect_same(rt)
    }

    // Both give the times that the plain walks find, and the same segments.
    fn expect_same(&self, rt: &impl Abort) -> Result<(), Fail> {
        let spans = self.searched.as_slice();
        for name in 0..NAMES {
            let own = self_of(spans, name);
            assert_eq!(rt; self.searched.self_of(name), own, "name {name}");
            assert_eq!(rt; self.stacked.self_of(name), own, "name {name} in stacks");
        }
        let busy = busy_time(spans);
        assert_eq!(rt; self.searched.busy(), busy);
        assert_eq!(rt; self.stacked.busy(), busy);
        let count = self.searched.segment_count();
        assert_eq!(rt; count, self.stacked.segment_count());
        for i in 0..count {
            assert_eq!(rt;
                self.searched.segment(i),
                self.stacked.segment(i),
                "segment {i}"
            );
        }
        assert_eq!(rt; self.searched.segment(count), None);
        let own = self.searched.self_times(self.alloc)?;
        expect_self_times(rt, spans, &own);
        assert_eq!(rt; self.stacked.self_times(self.alloc)?, own, "in stacks");
        Ok(())
    }
}

fn expect_all(rt: &impl Abort, alloc: Global, given: &[Given]) -> Result<(), Fail> {
    let mut both = Both::new(alloc);
    let result = both.add_all(rt, given);
    drop(both);
    result
}

#[test]
fn spans_that_start_together(rt: HostRuntime) -> Result<(), Fail> {
    let growing = [(0, 3, 5), (1, 3, 9), (2, 3, 14), (3, 3, 20), (4, 3, 21)];
    expect_all(&rt, rt.alloc(), &growing)?;
    let mixed = [
        (0, 3, 14),
        (1, 3, 5),
        (2, 3, 21),
        (3, 3, 9),
        (4, 1, 30),
        (0, 3, 9),
        (1, 2, 25),
    ];
    expect_all(&rt, rt.alloc(), &mixed)
}

#[test]
fn spans_that_cross(rt: HostRuntime) -> Result<(), Fail> {
    let ascending = [(0, 0, 10), (1, 2, 12), (2, 4, 14), (3, 6, 16)];
    expect_all(&rt, rt.alloc(), &ascending)?;
    let descending = [(0, 6, 16), (1, 4, 14), (2, 2, 12), (3, 0, 10)];
    expect_all(&rt, rt.alloc(), &descending)
}

#[test]
fn spans_that_grow_outwards(rt: HostRuntime) -> Result<(), Fail> {
    let outwards = [(0, 10, 11), (1, 8, 13), (2, 6, 15), (0, 4, 17), (3, 5, 17)];
    expect_all(&rt, rt.alloc(), &outwards)
}

#[test]
fn a_long_span_between_short_ones(rt: HostRuntime) -> Result<(), Fail> {
    let comb = [
        (0, 5, 6),
        (0, 8, 9),
        (1, 0, 30),
        (0, 12, 13),
        (0, 15, 18),
        (2, 7, 16),
        (3, 9, 12),
    ];
    expect_all(&rt, rt.alloc(), &comb)
}

#[test]
fn equal_spans_and_empty_ones(rt: HostRuntime) -> Result<(), Fail> {
    let equal = [(0, 4, 9), (1, 4, 9), (2, 6, 6), (3, 4, 9), (4, 4, 4)];
    expect_all(&rt, rt.alloc(), &equal)
}

// A number that looks like chance, from the one before.
fn next_chance(chance: u64) -> u64 {
    chance
        .wrapping_mul(6364136223846793005)
        .wrapping_add(1442695040888963407)
}

fn add_at_random(rt: &impl Abort, both: &mut Both) -> Result<(), Fail> {
    let mut chance = 1u64;
    for at in 0..40u32 {
        chance = next_chance(chance);
        let start = ((chance >> 33) % 40) as i64;
        chance = next_chance(chance);
        let length = ((chance >> 33) % 20) as i64;
        both.add(rt, at, &(at % NAMES, start, start + length))?;
    }
    Ok(())
}

#[test]
fn spans_at_random(rt: HostRuntime) -> Result<(), Fail> {
    let mut both = Both::new(rt.alloc());
    let result = add_at_random(&rt, &mut both);
    drop(both);
    result
}

// Nested spans of one end over some that were closed before, none, and one more.
fn add_groups(rt: &impl Abort, both: &mut Both) -> Result<(), Fail> {
    both.add_all(rt, &[(0, 2, 5), (1, 7, 9), (0, 12, 14)])?;
    both.add_at_once(rt, &[(2, 10, 20), (3, 6, 20), (2, 3, 20), (4, 0, 20)])?;
    both.add_at_once(rt, &[])?;
    both.add_at_once(rt, &[(1, 1, 20)])?;
    assert_eq!(rt; both.searched.as_slice().len(), 8);
    assert_eq!(rt; both.stacked.as_slice().len(), 8);
    Ok(())
}

#[test]
fn spans_that_end_together(rt: HostRuntime) -> Result<(), Fail> {
    let mut both = Both::new(rt.alloc());
    let result = add_groups(&rt, &mut both);
    drop(both);
    result
}
