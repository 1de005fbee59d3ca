//! Requests that are done, and whose outcomes are delivered.
ghost use Rattle.std.specs.Prelude.{◌≤◌};
ghost use Rattle.span_tasks.specs.{Outcome.DeliversOne, Requests.{IsAsked, IsOutcome}};

use crate::outcome::{FAILED, Lines, say_no_memory};
use crate::place::Place;
use span_event::Text;
use span_report::Sink;
use span_request::{Request, request_of};
use span_runs::Source;
use std::random::RandomSource;
use std::sync::Wait;
use std::thread::Threads;

/// Where requests are done, and where their outcomes go: an output, and where fault lines are said.
#[derive(Drop)]
pub struct Session<'a, R, S, O, L> {
    pub place: Place<'a, R, S>,
    pub output: O,
    pub lines: L,
}

impl<'a, R: Threads + Wait + RandomSource + Sync, S: Source + Sync, O: Sink, L: Lines> Session<
    'a,
    R,
    S,
    O,
    L,
> {
    /// Does what the words ask for, which leave out the program's own name. The exit status is that of `perform`.
    pub fn perform_words(&mut self, words: Vec<Text>) -> u8
        ensures status { result ≤ 2 }
        ensures delivers { DeliversOne (IsAsked (S.bytes self.old.place.source.now) (S.folders self.old.place.source.now) words.items)
            result (record { output = O.state self.old.output; lines = L.state self.old.lines })
            (record { output = O.state self.new.output; lines = L.state self.new.lines }) }
    {
        match request_of(self.place.alloc, words) {
            Ok(request) => self.perform(request),
            Err(_) => {
                say_no_memory(&mut self.lines);
                FAILED
            }
        }
    }

    /// Does what is asked for, and gives the exit status: 0 where every file was read, 1 where one was refused, else 2. Files are read
    /// in the order of their names; the first that stops decides. A failed write of a line changes no status. Waits for the workers, of
    /// which each file of a run has one.
    pub fn perform(&mut self, request: Request) -> u8
        ensures status { result ≤ 2 }
        ensures delivers { DeliversOne (IsOutcome (S.bytes self.old.place.source.now) (S.folders self.old.place.source.now) request) result
            (record { output = O.state self.old.output; lines = L.state self.old.lines })
            (record { output = O.state self.new.output; lines = L.state self.new.lines }) }
    {
        match self.place.outcome_of(request) {
            Ok(outcome) => {
                let status = outcome.deliver(&mut self.output, &mut self.lines);
                drop(outcome);
                status
            }
            Err(_) => {
                say_no_memory(&mut self.lines);
                FAILED
            }
        }
    }
}
