//! The sink over a writer of the standard library.
ghost use Rattle.std.specs.Prelude.{◌≡◌, ℕ, ◌+◌};
ghost use Rattle.span_report.specs.Sink.{after_last};

use crate::sink::{Sink, SinkFault};
use std::io::Write;
use std::marker::Model;
use std::snapshot::Snapshot;

// How many calls failed. Contracts alone see the number, so it has no bound.
#[derive(Drop)]
struct Failures {
    last: Option<Snapshot<Failures>>,
}

impl Model for Failures {
    ghost Value = { ℕ };

    ghost view = { λ f. after_last f.last };

    ghost size = { λ n. n };
}

impl Failures {
    fn none() -> Failures
        ensures { result ≡ 0 }
    {
        Failures { last: None }
    }

    fn and_one(&self) -> Failures
        ensures { result ≡ self.now + 1 }
    {
        Failures {
            last: Some(Snapshot::of(self)),
        }
    }
}

/// A sink over a writer. An error, an interruption or 0 bytes taken is a fault: nothing is tried again.
#[derive(Drop)]
pub struct Writer<I: Write> {
    inner: I,
    failures: Failures,
}

impl<I: Write> Writer<I> {
    /// A sink with no failure so far.
    pub fn new(inner: I) -> Writer<I>
        ensures { ⟦<Writer<I> as Sink>⟧.state result
            ≡ record { taken = I.contents inner; failures = 0 } }
    {
        Writer {
            inner,
            failures: Failures::none(),
        }
    }

    fn count_failure(&mut self) -> SinkFault
        ensures { self.new ≡ record self.old { failures = self.old.failures + 1 } }
    {
        self.failures = self.failures.and_one();
        SinkFault
    }
}

impl<I: Write> Sink for Writer<I> {
    ghost state = { λ w. record { taken = I.contents w.inner; failures = w.failures } };

    fn put(&mut self, bytes: &[u8]) -> Result<usize, SinkFault> {
        match self.inner.write(bytes) {
            Ok(count) if count > 0 => Ok(count),
            _ => Err(self.count_failure()),
        }
    }

    fn finish(&mut self) -> Result<(), SinkFault> {
        match self.inner.flush() {
            Ok(()) => Ok(()),
            Err(_) => Err(self.count_failure()),
        }
    }
}
