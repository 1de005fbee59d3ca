//! How the values of a key are spread over repeated runs.
ghost use Rattle.std.specs.Prelude.{◌≡◌, ◌≤◌, ◌||◌, get_or, nat_lt};
ghost use Rattle.span_comparisons.specs.Spreads.{has_same_spread, is_apart, median_gap, spread_of, spread_order};

use span_table::Key;
use std::cmp::Ordering;
use std::marker::Model;

/// Of values in ascending order the middle one, of an even number the lower of both, the first, and the last; zeros where there are
/// none.
#[derive(Clone, Copy)]
pub(crate) struct Spread {
    pub(crate) median: u128,
    pub(crate) least: u128,
    pub(crate) greatest: u128,
}

impl Spread {
    /// That of values, which are put in order.
    pub(crate) fn of(values: &mut [u128]) -> Spread
        ensures value { result ≡ spread_of values.old }
        ensures order { result.least ≤ result.greatest }
    {
        values.sort_unstable();
        let last = values.len().saturating_sub(1);
        Spread {
            median: number_at(values, last / 2),
            least: number_at(values, 0),
            greatest: number_at(values, last),
        }
    }

    // Whether all values are less than all of the other.
    fn is_below(&self, other: &Spread) -> bool
        ensures { result ≡ nat_lt self.now.greatest other.now.least }
    {
        self.greatest < other.least
    }
}

fn number_at(values: &[u128], place: usize) -> u128
    ensures { result ≡ get_or values.now place 0 }
{
    match values.get(place) {
        Some(value) => *value,
        None => 0,
    }
}

/// A key with how its values are spread on both sides.
#[derive(Drop)]
pub(crate) struct Spreads<'a> {
    pub(crate) key: &'a Key,
    pub(crate) base: Spread,
    pub(crate) other: Spread,
}

impl<'a> Model for Spreads<'a> {
    ghost use Rattle.span_comparisons.specs.Spreads.{Spreads};

    ghost Value = { Spreads };

    ghost view = { λ s. record { key = s.key.now; base = s.base; other = s.other } };
}

impl<'a> Spreads<'a> {
    pub(crate) fn is_apart(&self) -> bool
        ensures { result ≡ is_apart self.now }
    {
        self.base.is_below(&self.other) || self.other.is_below(&self.base)
    }

    pub(crate) fn is_same(&self) -> bool
        ensures { result ≡ has_same_spread self.now }
    {
        self.base.median == self.other.median
            && self.base.least == self.other.least
            && self.base.greatest == self.other.greatest
    }

    fn median_gap(&self) -> u128
        ensures { result ≡ median_gap self.now }
    {
        self.base.median.abs_diff(self.other.median)
    }

    /// Which of two comes first.
    pub(crate) fn compare(&self, other: &Spreads<'a>) -> Ordering
        ensures { result ≡ spread_order self.now other.now }
    {
        let by_key = self.key.cmp(other.key);
        other.median_gap().cmp(&self.median_gap()).then(by_key)
    }
}
