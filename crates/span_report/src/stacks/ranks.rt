//! Spans in ascending rank.
ghost use Rattle.std.specs.Prelude.{◌≡◌};
ghost use Rattle.span_report.specs.{AreSpans, Stacks.Ticks.{rank_order, ranked}};

use span_ledger::NamedSpan;
use std::cmp::Ordering;

pub(crate) fn sort_by_rank(spans: &mut [NamedSpan])
    requires { AreSpans spans.old }
    ensures { spans.new ≡ ranked spans.old }
{
    spans.sort_unstable_by(compare_ranks);
}

// Which of two spans the other ranks above: of two that start together the longer one, of equal ones that which was opened first.
fn compare_ranks(a: &NamedSpan, b: &NamedSpan) -> Ordering
    ensures { result ≡ rank_order a.now b.now }
{
    let (first, second) = (a.span, b.span);
    first
        .start
        .cmp(&second.start)
        .then_with(|| second.until.cmp(&first.until))
        .then_with(|| first.at.cmp(&second.at))
}
