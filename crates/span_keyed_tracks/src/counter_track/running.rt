//! The samples of one series so far.
ghost use Rattle.std.specs.Prelude.{◌≡◌, ◌<◌, ◌^◌, ◌-◌, option_copied, IfOk, None, Some};
ghost use Rattle.span_keyed_tracks.specs.CountersKept.{samples_before, series_of_sums, with_sample};

use super::SeriesTotals;
use std::alloc::{AllocError, Global};
use std::marker::Model;

#[derive(Drop)]
pub(crate) struct Running {
    held: Held,
}

// Where a file has millions of series, most of them have one sample, which takes less than what several give.
#[derive(Drop)]
pub(crate) enum Held {
    One { ts: i64, value: i64 },
    Many(Box<Sums>),
}

#[derive(Clone, Copy)]
pub(crate) struct Sums {
    totals: SeriesTotals,
    latest: i64,
}

impl Model for Running {
    ghost use Rattle.span_keyed_tracks.specs.{Counters.Series, CountersKept.held_series};

    ghost Value = { Series };

    ghost view = { λ r. held_series r.held };
}

impl Running {
    // The samples before, with one more at a time.
    pub(crate) fn with(
        alloc: Global,
        before: Option<&Running>,
        ts: i64,
        value: i64,
    ) -> Result<Running, AllocError>
        requires room { samples_before (option_copied before) < 2 ^ 32 - 1 }
        ensures { IfOk result (λ running. running
            ≡ with_sample (option_copied before.entry) (record { ts = ts; value = value })) }
    {
        let held = match before {
            Some(before) => Held::Many(Box::new(alloc, before.sums().and(ts, value))?),
            None => Held::One { ts, value },
        };
        Ok(Running { held })
    }

    pub(crate) fn totals(&self) -> SeriesTotals
        ensures { result ≡ self.now.totals }
    {
        self.sums().totals
    }

    fn sums(&self) -> Sums
        ensures { series_of_sums result ≡ self.now }
    {
        match &self.held {
            Held::One { ts, value } => Sums::of(*ts, *value),
            Held::Many(sums) => **sums,
        }
    }
}

impl Sums {
    fn of(ts: i64, value: i64) -> Sums
        ensures { series_of_sums result ≡ with_sample None (record { ts = ts; value = value }) }
    {
        let totals = SeriesTotals {
            samples: 1,
            least: value,
            greatest: value,
            last: value,
        };
        Sums { totals, latest: ts }
    }

    fn and(&self, ts: i64, value: i64) -> Sums
        requires room { self.now.totals.samples < 2 ^ 32 - 1 }
        ensures { series_of_sums result
            ≡ with_sample (Some (series_of_sums self.now)) (record { ts = ts; value = value }) }
    {
        let totals = self.totals;
        let last = if ts < self.latest { totals.last } else { value };
        Sums {
            totals: SeriesTotals {
                samples: totals.samples + 1,
                least: totals.least.min(value),
                greatest: totals.greatest.max(value),
                last,
            },
            latest: self.latest.max(ts),
        }
    }
}
