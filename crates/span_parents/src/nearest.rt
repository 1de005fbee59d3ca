//! The nearest holder of each span, in their order by name and rank.
ghost use Rattle.std.specs.{List.Sorted.IsStrictlySortedBy, Prelude.{◌≡◌, ◌<◌, [], IfOk, IfSome, length}};
ghost use Rattle.span_parents.specs.{AreSpans, Holding.spans_of, Nearest.{AreInOrder, AreLinks, ArePlacesOfHighest, IsLink, place_at, placed, placed_order, reaches}};

use span_event::Text;
use span_ledger::TimedSpan;
use std::alloc::{AllocError, Global};
use std::cmp::Ordering;
use std::marker::Model;

/// Among which spans holders are looked for.
#[derive(Clone, Copy)]
pub(crate) enum Among {
    All,
    SameName,
}

/// For each span the place of the highest of its holders.
pub(crate) fn highest_holders(
    alloc: Global,
    spans: &[TimedSpan],
    among: Among,
) -> Result<Vec<Option<usize>>, AllocError>
    requires { AreSpans (spans_of spans.now) }
    ensures { IfOk result (λ places.
        ArePlacesOfHighest among (spans_of spans.now) places.items) }
{
    let all = Text::empty(alloc);
    let ordered = in_order(alloc, spans, among, &all)?;
    let links = links(alloc, &ordered)?;
    let mut places = vec![in alloc; None; spans.len()]?;
    for i in 0..ordered.len() {
        let span = &ordered[i];
        places[span.place] = place_at(&ordered, links[i]);
    }
    Ok(places)
}

// A span as it is compared, and its place.
#[derive(Drop)]
struct PlacedSpan<'a> {
    name: &'a Text,
    start: i64,
    until: i64,
    at: u32,
    place: usize,
}

impl<'a> Model for PlacedSpan<'a> {
    ghost use Rattle.std.specs.Prelude.{[]};
    ghost use Rattle.span_parents.specs.Nearest.{Placed};

    ghost Value = { Placed };

    ghost view = { λ p. record {
      span = record { name = p.name.now; start = p.start; until = p.until; at = p.at; args = [] };
      place = p.place;
    } };
}

impl<'a> PlacedSpan<'a> {
    // Where holders are looked for among all spans, their name is to be this one.
    fn of(timed: &'a TimedSpan, place: usize, among: Among, all: &'a Text) -> PlacedSpan<'a>
        requires { all.now ≡ [] }
        ensures { result ≡ placed among timed.now.span place }
    {
        PlacedSpan {
            name: match among {
                Among::All => all,
                Among::SameName => timed.name,
            },
            start: timed.span.start,
            until: timed.span.until,
            at: timed.span.at,
            place,
        }
    }

    fn reaches(&self, other: &PlacedSpan) -> bool
        ensures { result ≡ reaches self.now other.now }
    {
        self.name == other.name && other.until <= self.until
    }
}

fn in_order<'a>(
    alloc: Global,
    spans: &'a [TimedSpan],
    among: Among,
    all: &'a Text,
) -> Result<Vec<PlacedSpan<'a>>, AllocError>
    requires all { all.now ≡ [] }
    requires spans { AreSpans (spans_of spans.now) }
    ensures { IfOk result (λ ordered. AreInOrder among (spans_of spans.now) ordered.items) }
{
    let mut ordered = Vec::with_capacity(alloc, spans.len())?;
    for (place, timed) in spans.iter().enumerate() {
        ordered.push(PlacedSpan::of(timed, place, among, all))?;
    }
    ordered.sort_unstable_by(compare);
    Ok(ordered)
}

// By name, and then in ascending rank.
fn compare(a: &PlacedSpan, b: &PlacedSpan) -> Ordering
    ensures { result ≡ placed_order a.now b.now }
{
    let name = a.name.cmp(b.name);
    let start = a.start.cmp(&b.start);
    let until = b.until.cmp(&a.until);
    name.then(start).then(until).then(a.at.cmp(&b.at))
}

// For each span the last one before it that reaches it.
fn links(alloc: Global, ordered: &[PlacedSpan]) -> Result<Vec<Option<usize>>, AllocError>
    requires { IsStrictlySortedBy placed_order ordered.now }
    ensures count { IfOk result (λ links. length links.items ≡ length ordered.now) }
    ensures links { IfOk result (λ links. AreLinks ordered.now links.items) }
{
    let mut links = Vec::with_capacity(alloc, ordered.len())?;
    for i in 0..ordered.len() {
        links.push(link_of(ordered, &links, i))?;
    }
    Ok(links)
}

// The link of a span behind these. A span that doesn't reach it is never passed again, since the way then leads over the link of this
// one.
fn link_of(ordered: &[PlacedSpan], links: &[Option<usize>], i: usize) -> Option<usize>
    requires order { IsStrictlySortedBy placed_order ordered.now }
    requires within { i < length ordered.now }
    requires links { AreLinks ordered.now links.now }
    requires count { length links.now ≡ i }
    ensures { IsLink ordered.now i result }
{
    let mut link = i.checked_sub(1);
    while let Some(before) = link {
        if ordered[before].reaches(&ordered[i]) {
            break;
        }
        link = links[before];
    }
    link
}

// The place of the span to which a link leads.
fn place_at(ordered: &[PlacedSpan], link: Option<usize>) -> Option<usize>
    requires { IfSome link (λ k. k < length ordered.now) }
    ensures { result ≡ place_at ordered.now link }
{
    match link {
        Some(before) => {
            let span = &ordered[before];
            Some(span.place)
        }
        None => None,
    }
}
