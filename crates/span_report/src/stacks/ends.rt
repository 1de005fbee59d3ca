//! Which spans of a thread stand in a stretch of time.
ghost use Rattle.std.specs.{Int.int_max, Prelude.{◌≡◌, ◌<◌, ◌≤◌, All, None, int_le, length, IfOk, IfSome}};
ghost use Rattle.span_report.specs.{AreSpans, Stacks.{Pending.{AreLinks, IsBare, IsFirstBeyond, IsFirstPending, IsLinkTo, IsOnward, Rise}, Ticks.ranked}};

use super::pending::{PendingFrame, Stretch};
use super::ranks::sort_by_rank;
use span_ledger::NamedSpan;
use std::alloc::{AllocError, Global};
use std::marker::Model;

// Which later span is the first to end later than a span, and one that ends later still, to jump to.
#[derive(Clone, Copy)]
struct Link {
    later: usize,
    jump: usize,
    // How many spans are on the way from one to the next.
    depth: usize,
}

// The spans of a thread in ascending rank, each with its link.
#[derive(Drop)]
pub(crate) struct RankedSpans<'a> {
    spans: Vec<NamedSpan<'a>>,
    links: Vec<Link>,
}

impl<'a> Model for RankedSpans<'a> {
    ghost use Rattle.std.specs.Prelude.{List};
    ghost use Rattle.span_report.specs.{Bytes, Span, Stacks.Pending.{AreLinks, Rise}};

    ghost Value = { List (Span Bytes) };

    ghost view = { λ r. r.spans.items };

    ghost invariant = { λ r. AreLinks 0 r.spans.items r.links.items × Rise r.spans.items };
}

impl<'a> RankedSpans<'a> {
    pub(crate) fn new(
        alloc: Global,
        mut spans: Vec<NamedSpan<'a>>,
    ) -> Result<RankedSpans<'a>, AllocError>
        requires { AreSpans spans.items }
        ensures { IfOk result (λ spans'. spans' ≡ ranked spans.entry.items) }
    {
        sort_by_rank(&mut spans);
        let links = links_of(alloc, &spans)?;
        Ok(RankedSpans { spans, links })
    }

    // The first frame in the stretch, which stands on so many others.
    pub(crate) fn first_pending(&self, below: usize, stretch: &Stretch) -> Option<PendingFrame<'a>>
        requires { stretch.now.next ≤ length self.now }
        ensures bare { result ≡ None → IsBare self.now stretch.now }
        ensures first { IfSome result (λ frame. IsFirstPending self.now stretch.now frame) }
        ensures below { IfSome result (λ frame. frame.below ≡ below) }
    {
        let at = first_beyond(&self.spans, &self.links, stretch.next, stretch.from);
        if at >= self.spans.len() {
            return None;
        }
        let named = &self.spans[at];
        let from = named.span.start.max(stretch.from);
        if from >= stretch.until {
            return None;
        }
        let until = named.span.until.min(stretch.until);
        let next = at + 1;
        let over = Stretch { from, until, next };
        Some(PendingFrame {
            below,
            name: named.name,
            over,
        })
    }
}

// The first of the spans from `next` on that covers a tick from this time on.
fn first_beyond(spans: &[NamedSpan], links: &[Link], next: usize, time: i64) -> usize
    requires rise { Rise spans.now }
    requires links { AreLinks next spans.now links.now }
    requires next { next ≤ length spans.now }
    ensures { IsFirstBeyond spans.now next time result }
{
    let mut at = next;
    while at < spans.len() && ends_by(&spans[at], time) {
        at = onward(spans, &links[at], time);
    }
    at
}

// Where the link of a span leads that has no tick from this time on: no further than that none before has one.
fn onward(spans: &[NamedSpan], link: &Link, time: i64) -> usize
    ensures { IsOnward spans.now link.now time result }
{
    if link.jump < spans.len() && until_of(&spans[link.jump]) <= time {
        link.jump
    } else {
        link.later
    }
}

// Whether the span has no tick from this time on.
fn ends_by(named: &NamedSpan, time: i64) -> bool
    ensures { result ≡ int_le named.now.until (int_max time named.now.start) }
{
    named.span.until <= time.max(named.span.start)
}

// The links of all spans, and one behind them that leads nowhere.
fn links_of(alloc: Global, spans: &[NamedSpan]) -> Result<Vec<Link>, AllocError>
    requires { Rise spans.now }
    ensures { IfOk result (λ links. AreLinks 0 spans.now links.items) }
{
    let nowhere = Link {
        later: spans.len(),
        jump: spans.len(),
        depth: 0,
    };
    let mut links = vec![in alloc; nowhere; spans.len() + 1]?;
    let mut at = spans.len();
    while at > 0 {
        at -= 1;
        let later = first_beyond(spans, &links, at + 1, until_of(&spans[at]));
        links[at] = link_to(&links, later);
    }
    Ok(links)
}

// A link to this span. Where the two jumps from there are equally far, it jumps over both: so a few jumps lead past many spans.
fn link_to(links: &[Link], later: usize) -> Link
    requires later { later < length links.now }
    requires jumps { All (λ link. link.jump < length links.now) links.now }
    ensures { IsLinkTo links.now later result }
{
    let near = links[later];
    let far = links[near.jump];
    let beyond = links[far.jump];
    let even = near.depth.wrapping_sub(far.depth) == far.depth.wrapping_sub(beyond.depth);
    Link {
        later,
        jump: if even { far.jump } else { later },
        depth: near.depth.wrapping_add(1),
    }
}

fn until_of(named: &NamedSpan) -> i64
    ensures { result ≡ named.now.until }
{
    named.span.until
}
