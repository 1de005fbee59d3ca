//! What spans come to together.
ghost use Rattle.std.specs.Prelude.{◌≡◌, IfOk};
ghost use Rattle.span_table.specs.Sums.{fit, no_sums, number_by, only, same_sums, sums_of_async, sums_of_row, sums_of_span, with_number, with_sums};

use crate::number::{Number, all_numbers};
use crate::wide::{is_narrow, plus};
use span_journal::SpanRow;
use span_keyed_tracks::AsyncRow;
use std::alloc::AllocError;

/// The numbers of a row: how many closed spans, their lengths and self times together, the greatest length, and the lengths of outer
/// spans; of asynchronous spans how many are open, and how many points there are, but no self time and no outer ones. Times are ticks:
/// microseconds or nanoseconds, as the runs count.
#[derive(Clone, Copy)]
pub struct Sums {
    pub count: u128,
    pub total: u128,
    pub self_time: u128,
    pub longest: u128,
    pub outer: u128,
    pub unclosed: u128,
    pub points: u128,
}

impl Sums {
    pub fn of_none() -> Sums
        ensures { result ≡ no_sums }
    {
        Sums {
            count: 0,
            total: 0,
            self_time: 0,
            longest: 0,
            outer: 0,
            unclosed: 0,
            points: 0,
        }
    }

    pub(crate) fn of_row(row: &SpanRow) -> Sums
        ensures { result ≡ sums_of_row row.now }
    {
        Sums {
            count: u128::from(row.count),
            total: row.total,
            self_time: u128::from(row.self_time),
            longest: 0,
            outer: 0,
            unclosed: 0,
            points: 0,
        }
    }

    pub(crate) fn of_async(row: &AsyncRow, longest: u64) -> Sums
        ensures { result ≡ sums_of_async row.now longest }
    {
        let totals = &row.totals;
        Sums {
            count: u128::from(totals.closed),
            total: totals.total,
            self_time: 0,
            longest: u128::from(longest),
            outer: 0,
            unclosed: u128::from(totals.unclosed),
            points: u128::from(totals.points),
        }
    }

    /// Of one span of this length and self time, which is outer or isn't.
    pub(crate) fn of_span(length: u64, self_time: u64, outer: bool) -> Sums
        ensures { result ≡ sums_of_span length self_time outer }
    {
        Sums {
            count: 1,
            total: u128::from(length),
            self_time: u128::from(self_time),
            longest: u128::from(length),
            outer: if outer { u128::from(length) } else { 0 },
            unclosed: 0,
            points: 0,
        }
    }

    /// These sums and others.
    pub(crate) fn plus(&self, more: &Sums) -> Result<Sums, AllocError>
        ensures { IfOk result (λ sums. sums ≡ with_sums self.now more.now) }
    {
        Ok(Sums {
            count: plus(self.count, more.count)?,
            total: plus(self.total, more.total)?,
            self_time: plus(self.self_time, more.self_time)?,
            longest: self.longest.max(more.longest),
            outer: plus(self.outer, more.outer)?,
            unclosed: plus(self.unclosed, more.unclosed)?,
            points: plus(self.points, more.points)?,
        })
    }

    /// The value of a number.
    pub fn by(&self, number: Number) -> u128
        ensures { result ≡ number_by number self.now }
    {
        match number {
            Number::SelfTime => self.self_time,
            Number::Total => self.total,
            Number::Count | Number::Closed => self.count,
            Number::Longest => self.longest,
            Number::Outer => self.outer,
            Number::Open => self.unclosed,
            Number::Points => self.points,
        }
    }

    /// Gives a number this value.
    pub fn put(&mut self, number: Number, value: u128)
        ensures { self.new ≡ with_number number value self.old }
    {
        match number {
            Number::SelfTime => self.self_time = value,
            Number::Total => self.total = value,
            Number::Count | Number::Closed => self.count = value,
            Number::Longest => self.longest = value,
            Number::Outer => self.outer = value,
            Number::Open => self.unclosed = value,
            Number::Points => self.points = value,
        }
    }

    /// These numbers alone; the others are 0.
    pub fn only(&self, numbers: &[Number]) -> Sums
        ensures { result ≡ only numbers.now self.now }
    {
        let mut sums = Sums::of_none();
        for number in numbers.iter().rev() {
            sums.put(*number, self.by(*number));
        }
        sums
    }

    /// Whether all numbers are equal.
    pub fn equals(&self, other: &Sums) -> bool
        ensures { result ≡ same_sums self.now other.now }
    {
        all_numbers()
            .iter()
            .all(|number| self.by(*number) == other.by(*number))
    }
}

/// Whether all numbers have 64 bits.
pub fn fits(sums: &Sums) -> bool
    ensures { result ≡ fit sums.now }
{
    all_numbers()
        .iter()
        .all(|number| is_narrow(sums.by(*number)))
}
