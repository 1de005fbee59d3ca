//! The parents of the closed spans of a thread, and which of them are outer.
ghost use Rattle.std.specs.Prelude.{◌≡◌, ◌<◌, All, IfOk, IfSome, length, map};
ghost use Rattle.span_parents.specs.{AreSpans, Holding.{is_outer, parent_of, spans_at, spans_of}};

use crate::nearest::{Among, highest_holders};
use span_ledger::TimedSpan;
use std::alloc::{AllocError, Global};

/// For each of the closed spans of a thread the place of its parent among them: of the spans that hold it, the one that ranks above all
/// others. None where no span holds it.
pub fn parents(alloc: Global, spans: &[TimedSpan]) -> Result<Vec<Option<usize>>, AllocError>
    requires { AreSpans (spans_of spans.now) }
    ensures parents { IfOk result (λ places.
        let all = spans_of spans.now in spans_at all places.items ≡ map (parent_of all) all) }
    ensures within { IfOk result (λ places.
        All (λ place. IfSome place (λ p. p < length spans.now)) places.items) }
{
    highest_holders(alloc, spans, Among::All)
}

/// For each of the closed spans of a thread whether it is outer: no span of its name holds it.
pub fn outer(alloc: Global, spans: &[TimedSpan]) -> Result<Vec<bool>, AllocError>
    requires { AreSpans (spans_of spans.now) }
    ensures { IfOk result (λ outer.
        let all = spans_of spans.now in outer.items ≡ map (is_outer all) all) }
{
    let holders = highest_holders(alloc, spans, Among::SameName)?;
    let mut outer = Vec::with_capacity(alloc, spans.len())?;
    for holder in &holders {
        outer.push(holder.is_none())?;
    }
    Ok(outer)
}

#[cfg(test)]
mod tests {
    use super::*;
    use span_event::{Args, Text};
    use span_self_time::ClosedSpan;
    use std::test::Fail;

    fn closed(alloc: Global, start: i64, until: i64, at: u32) -> ClosedSpan
        ensures start { result.start ≡ start }
        ensures until { result.until ≡ until }
        ensures at { result.at ≡ at }
    {
        ClosedSpan {
            name: 0,
            start,
            until,
            at,
            args: Args::empty(alloc),
        }
    }

    fn timed<'a>(name: &'a Text, span: &'a ClosedSpan) -> TimedSpan<'a>
        ensures start { result.span.start ≡ span.entry.now.start }
        ensures until { result.span.until ≡ span.entry.now.until }
        ensures at { result.span.at ≡ span.entry.now.at }
    {
        TimedSpan {
            name,
            span,
            self_time: 0,
        }
    }

    // The last span is held by the first, which is not among its parents' parents.
    #[test]
    fn crossing(rt: HostRuntime) -> Result<(), Fail> {
        let alloc = rt.alloc();
        let (a, b) = (Text::of(alloc, "a")?, Text::of(alloc, "b")?);
        let (first, second, third) = (
            closed(alloc, 0, 10, 0),
            closed(alloc, 5, 15, 1),
            closed(alloc, 6, 8, 2),
        );
        let spans = [timed(&a, &third), timed(&a, &first), timed(&b, &second)];
        let parents = parents(alloc, &spans)?;
        assert_eq!(rt; parents.as_slice(), [Some(2), None, None].as_slice());
        let outer = outer(alloc, &spans)?;
        assert_eq!(rt; outer.as_slice(), [false, true, true].as_slice());
        Ok(())
    }
}
