//! Which numbers a comparison shows, and which ones put it in order.
ghost use Rattle.std.specs.Prelude.{◌≡◌, IfOk};
ghost use Rattle.span_comparisons.specs.{Changes.order_numbers, Comparison.{compared_numbers, is_shown_count}};

use span_table::{Audience, Number, Schema, are_same, has_number};
use std::alloc::{AllocError, Global};
use std::iter::once;

const COUNTS: [Number; 2] = [Number::Open, Number::Closed];

/// This number, then the times among these numbers in their order, and then open and closed as far as they are among them.
pub(crate) fn order_numbers(
    alloc: Global,
    by: Number,
    numbers: &[Number],
) -> Result<Vec<Number>, AllocError>
    ensures { IfOk result (λ order. order.items ≡ order_numbers by numbers.now) }
{
    let times = numbers.iter().copied().filter(|number| number.is_time());
    let counts = COUNTS
        .iter()
        .copied()
        .filter(|count| has_number(numbers, *count));
    once(by).chain(times).chain(counts).collect(alloc)
}

/// Those that are shown: the times of a schema in their order, and behind them its counts, without points where its numbers are the
/// usual ones for people.
pub(crate) fn compared_numbers(alloc: Global, schema: &Schema) -> Result<Vec<Number>, AllocError>
    ensures { IfOk result (λ numbers. numbers.items ≡ compared_numbers schema.now) }
{
    let numbers = &schema.numbers;
    let usual = are_same(numbers, schema.of.numbers(Audience::People));
    let times = numbers.iter().copied().filter(|number| number.is_time());
    let counts = numbers
        .iter()
        .copied()
        .filter(|number| is_shown_count(*number, usual));
    times.chain(counts).collect(alloc)
}

// Whether the number is a count that is shown; of the usual numbers points aren't.
fn is_shown_count(number: Number, usual: bool) -> bool
    ensures { result ≡ is_shown_count usual number }
{
    match number {
        Number::Points => !usual,
        _ => !number.is_time(),
    }
}
