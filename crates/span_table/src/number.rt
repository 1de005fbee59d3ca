//! The numbers of a row, and which ones there are of what is summed.
ghost use Rattle.std.specs.Prelude.{◌≡◌};
ghost use Rattle.span_table.specs.Numbers.{all_numbers, all_of, are_same, asks_each, has_number, is_time, number_name, number_named, number_width, usual_by, usual_numbers};

use crate::audience::Audience;
use crate::of::Of;

/// A number of a row. Times are ticks, microseconds or nanoseconds; the others are counts.
#[derive(Clone, Copy, Debug, PartialEq, Eq)]
pub enum Number {
    SelfTime,
    Total,
    /// How many spans there are.
    Count,
    /// The greatest length.
    Longest,
    /// The lengths of outer spans: of those that no closed span of their thread with their name holds.
    Outer,
    /// How many asynchronous spans are closed.
    Closed,
    Open,
    Points,
}

impl Number {
    /// The number of this name.
    pub fn named(name: &str) -> Option<Number>
        ensures { result ≡ number_named name.now }
    {
        all_numbers()
            .iter()
            .copied()
            .find(|number| number.name() == name)
    }

    /// What it is called in every text.
    pub fn name(self) -> &'static str
        ensures { result.now ≡ number_name self }
    {
        match self {
            Number::SelfTime => "self",
            Number::Total => "total",
            Number::Count => "count",
            Number::Longest => "longest",
            Number::Outer => "outer",
            Number::Closed => "closed",
            Number::Open => "open",
            Number::Points => "points",
        }
    }

    /// Whether it is a time, and not a count.
    pub fn is_time(self) -> bool
        ensures { result ≡ is_time self }
    {
        matches!(
            self,
            Number::SelfTime | Number::Total | Number::Longest | Number::Outer
        )
    }

    /// Whether only the spans of a name tell it, and not the row of the name.
    pub(crate) fn asks_each(self) -> bool
        ensures { result ≡ asks_each self }
    {
        matches!(self, Number::Longest | Number::Outer)
    }

    /// How wide its column is at least.
    pub fn width(self) -> usize
        ensures { result ≡ number_width self }
    {
        if self.is_time() { 16 } else { 8 }
    }
}

impl Of {
    /// The numbers that a text shows where none are named.
    pub fn numbers(self, audience: Audience) -> &'static [Number]
        ensures { result.now ≡ usual_numbers audience self }
    {
        match (audience, self) {
            (Audience::People, Of::Spans) => { &[Number::SelfTime, Number::Total, Number::Count] }
            (Audience::People, Of::Async) => {
                &[Number::Total, Number::Closed, Number::Open, Number::Points]
            }
            (Audience::Programs, Of::Spans) => { &[Number::Count, Number::Total, Number::SelfTime] }
            (Audience::Programs, Of::Async) => {
                &[Number::Closed, Number::Total, Number::Open, Number::Points]
            }
        }
    }

    /// Every number that it has.
    pub fn all(self) -> &'static [Number]
        ensures { result.now ≡ all_of self }
    {
        match self {
            Of::Spans => &[
                Number::SelfTime,
                Number::Total,
                Number::Count,
                Number::Longest,
                Number::Outer,
            ],
            Of::Async => &[
                Number::Total,
                Number::Closed,
                Number::Open,
                Number::Points,
                Number::Longest,
            ],
        }
    }

    /// The number that rows go by where none is named.
    pub fn by(self) -> Number
        ensures { result ≡ usual_by self }
    {
        match self {
            Of::Spans => Number::SelfTime,
            Of::Async => Number::Total,
        }
    }
}

/// Every number.
pub(crate) fn all_numbers() -> &'static [Number]
    ensures { result.now ≡ all_numbers }
{
    &[
        Number::SelfTime,
        Number::Total,
        Number::Count,
        Number::Longest,
        Number::Outer,
        Number::Closed,
        Number::Open,
        Number::Points,
    ]
}

/// Whether the number is one of these.
pub fn has_number(numbers: &[Number], number: Number) -> bool
    ensures { result ≡ has_number numbers.now number }
{
    numbers.iter().any(|other| other.name() == number.name())
}

/// Whether both are the same numbers in the same order.
pub fn are_same(numbers: &[Number], others: &[Number]) -> bool
    ensures { result ≡ are_same numbers.now others.now }
{
    let Some((number, numbers)) = numbers.split_first() else {
        return others.is_empty();
    };
    let Some((other, others)) = others.split_first() else {
        return false;
    };
    number.name() == other.name() && are_same(numbers, others)
}
