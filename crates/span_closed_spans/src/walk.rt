//! Self and busy times of a list of spans, found by walking from each start or end to the next.
ghost use Rattle.std.specs.Prelude.{◌≡◌, ◌⊎◌, ℤ, ◌≤ℤ◌, ◌<ℤ◌, nat_eq, map, All};
ghost use Rattle.span_closed_spans.specs.{least_time, distance, covers, is_outranked, is_covered, count_from, earliest, latest, self_time, busy_time, self_of, span_of, greatest_until, IsInTime, AreClosed, Walk.{IsUnbroken, counts}};

use span_event::distance;
use span_self_time::ClosedSpan;

/// Which ticks a walk counts.
#[derive(Clone, Copy)]
enum Counted<'a> {
    /// Those that no span above this one covers.
    OwnOf(&'a ClosedSpan),
    /// Those that any span covers.
    Covered,
}

fn covers(span: &ClosedSpan, u: i64) -> bool
    ensures { result ≡ covers (span_of span.now) u }
{
    span.start <= u && u < span.until
}

fn is_outranked(spans: &[ClosedSpan], span: &ClosedSpan, u: i64) -> bool
    ensures { result ≡ is_outranked (map span_of spans.now) (span_of span.now) u }
{
    for other in spans {
        if covers(other, u) && other.outranks(span) {
            return true;
        }
    }
    false
}

fn is_covered(spans: &[ClosedSpan], u: i64) -> bool
    ensures { result ≡ is_covered (map span_of spans.now) u }
{
    for span in spans {
        if covers(span, u) {
            return true;
        }
    }
    false
}

// `at`, where it lies between u and next; else next.
fn nearer(u: i64, at: i64, next: i64) -> i64
    requires { u <ℤ next }
    ensures after { u <ℤ result }
    ensures within { result ≤ℤ next }
    ensures away { (at ≤ℤ u) ⊎ (result ≤ℤ at) }
{
    if u < at && at < next { at } else { next }
}

// The first start or end of a span after u, or `end` where it comes first.
fn next_boundary(spans: &[ClosedSpan], u: i64, end: i64) -> i64
    requires { u <ℤ end }
    ensures after { u <ℤ result }
    ensures within { result ≤ℤ end }
    ensures unbroken { All (λ span. IsUnbroken (span_of span) u result) spans.now }
{
    let mut next = end;
    for span in spans {
        next = nearer(u, span.until, nearer(u, span.start, next));
    }
    next
}

fn counts(spans: &[ClosedSpan], counted: Counted<'_>, u: i64) -> bool
    ensures { result ≡ counts (map span_of spans.now) counted.entry u }
{
    match counted {
        Counted::OwnOf(span) => !is_outranked(spans, span, u),
        Counted::Covered => is_covered(spans, u),
    }
}

// How many ticks count from one time to before another.
fn time_counted(spans: &[ClosedSpan], counted: Counted<'_>, from: i64, until: i64) -> u64
    requires forward { from ≤ℤ until }
    requires from_in_time { least_time ≤ℤ from }
    requires to_in_time { until ≤ℤ greatest_until }
    ensures { result
        ≡ count_from from (distance from until) (counts (map span_of spans.now) counted.entry) }
{
    let mut time = 0;
    let mut u = from;
    while u < until {
        let next = next_boundary(spans, u, until);
        if counts(spans, counted, u) {
            time += distance(u, next);
        }
        u = next;
    }
    time
}

// The ticks of the span that no span above it covers.
pub(crate) fn self_time(spans: &[ClosedSpan], span: &ClosedSpan) -> u64
    requires lasts { span.now.start ≤ℤ span.now.until }
    requires in_time { IsInTime (span_of span.now) }
    ensures { result ≡ self_time (map span_of spans.now) (span_of span.now) }
{
    time_counted(spans, Counted::OwnOf(span), span.start, span.until)
}

// The time from which on all spans lie, or 0 where they start later, and that before which all end, or 0 where they end sooner.
fn bounds(spans: &[ClosedSpan]) -> (i64, i64)
    ensures from { result.0 ≡ earliest (map span_of spans.now) }
    ensures until { result.1 ≡ latest (map span_of spans.now) }
{
    let mut earliest = 0i64;
    let mut latest = 0i64;
    for span in spans {
        earliest = earliest.min(span.start);
        latest = latest.max(span.until);
    }
    (earliest, latest)
}

/// The busy time, in ticks, found by walking through the time from the first span to the last. Takes no memory.
pub fn busy_time(spans: &[ClosedSpan]) -> u64
    requires { AreClosed (map span_of spans.now) }
    ensures { result ≡ busy_time (map span_of spans.now) }
{
    let (from, until) = bounds(spans);
    time_counted(spans, Counted::Covered, from, until)
}

/// The self times of the spans of one name, in ticks, found by walking through each of these spans. Takes no memory.
pub fn self_of(spans: &[ClosedSpan], name: u32) -> u64
    requires { AreClosed (map span_of spans.now) }
    ensures { result ≡ self_of nat_eq name (map span_of spans.now) }
{
    let mut own = 0;
    for span in spans {
        if span.name == name {
            own += self_time(spans, span);
        }
    }
    own
}
