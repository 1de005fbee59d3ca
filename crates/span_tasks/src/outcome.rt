//! What comes of a request, and how it reaches the outside.
ghost use Rattle.std.specs.Prelude.{◌≡◌, ◌<◌, ◌≤◌, length, take, Err, IfErr, IfOk, Ok, OnOk};
ghost use Rattle.span_runs.specs.declared.stop.Halt.TheVariants.{Stopped};
ghost use Rattle.span_tasks.specs.{Fails, IsHint, MemoryFault, OutputFault, TakesBytes, number_of, run_line, Outcome.{Delivers, IsOf, Says, SaysAndHints}};

use span_report::{Sink, SinkFault, write_bytes};
use span_runs::{Halt, Stop};
use std::alloc::{AllocError, Global};

/// The status of a request that prints nothing.
pub(crate) const FAILED: u8 = 2;

const NO_MEMORY: &[u8] = b"tracebook: 31 Memory\n";

const OUTPUT_FAILED: &[u8] = b"tracebook: 51 Output\n";

/// What comes of a request.
#[derive(Drop)]
pub struct Outcome {
    /// 0 where every file was read, 1 where one was refused, 2 where nothing is printed.
    pub status: u8,
    /// The text that is printed.
    pub output: Vec<u8>,
    /// The fault lines.
    pub lines: Vec<u8>,
    /// Lines behind these that change no status.
    pub warnings: Vec<u8>,
    /// What may help, for a person who reads the lines.
    pub hints: Vec<u8>,
}

/// A text, and the lines, warnings and hints that follow it.
#[derive(Drop)]
pub(crate) struct Print {
    pub(crate) text: Vec<u8>,
    pub(crate) lines: Vec<u8>,
    pub(crate) warnings: Vec<u8>,
    pub(crate) hints: Vec<u8>,
}

impl Outcome {
    /// The outcome of what was printed, or stopped.
    pub(crate) fn of(alloc: Global, made: Result<Print, Halt>) -> Result<Outcome, AllocError>
        ensures { IfOk result (IsOf made) }
    {
        match made {
            Ok(print) => Ok(Outcome::printing(print)),
            Err(Halt::Stopped(stop)) => Ok(Outcome::stopping(alloc, stop)),
            Err(Halt::Memory) => Err(AllocError),
        }
    }

    /// A text is printed.
    pub(crate) fn printing(print: Print) -> Outcome
        ensures { IsOf (Ok print) result }
    {
        Outcome {
            status: if print.lines.is_empty() { 0 } else { 1 },
            output: print.text,
            lines: print.lines,
            warnings: print.warnings,
            hints: print.hints,
        }
    }

    /// Nothing is printed.
    pub(crate) fn stopping(alloc: Global, stop: Stop) -> Outcome
        ensures { IsOf (Err (Stopped stop)) result }
    {
        Outcome {
            status: FAILED,
            output: Vec::new(alloc),
            lines: stop.lines,
            warnings: Vec::new(alloc),
            hints: stop.hints,
        }
    }

    /// Writes the text, and then the lines and warnings; gives the status. Where the output fails, that is said in place of the lines.
    pub(crate) fn deliver<O: Sink, L: Lines>(&self, out: &mut O, lines: &mut L) -> u8
        requires status { self.now.status ≤ 2 }
        requires hints { IsHint self.now.hints.items }
        ensures status { result ≤ 2 }
        ensures delivers { Delivers self.now result
            (record { output = O.state out.old; lines = L.state lines.old })
            (record { output = O.state out.new; lines = L.state lines.new }) }
    {
        match self.write(out) {
            Ok(()) => {
                self.say(lines);
                self.status
            }
            Err(_) => {
                say_output_failed(lines);
                FAILED
            }
        }
    }

    // Writes the text, unless nothing is printed.
    fn write<O: Sink>(&self, out: &mut O) -> Result<(), u64>
        requires { self.now.status ≤ 2 }
        ensures ok { OnOk result (self.now.status < 2
            → TakesBytes (O.state out.old) (O.state out.new) self.now.output.items) }
        ensures silent { OnOk result (self.now.status ≡ 2 → O.state out.new ≡ O.state out.old) }
        ensures within { IfErr result (λ written. written ≤ length self.now.output.items) }
        ensures printed { IfErr result (λ written. self.now.status < 2) }
        ensures fault { IfErr result (λ written.
            Fails (O.state out.old) (O.state out.new) (take written self.now.output.items)) }
    {
        if self.status == FAILED {
            return Ok(());
        }
        write_bytes(&self.output, out)
    }

    // Says the lines and the warnings, and then hints where a person reads along.
    fn say<L: Lines>(&self, lines: &mut L)
        requires { IsHint self.now.hints.items }
        ensures { SaysAndHints self.now.lines.items self.now.warnings.items
            (L.state lines.old) (L.state lines.new) }
    {
        say(&self.lines, lines);
        say(&self.warnings, lines);
        say(self.hints_for(lines), lines);
    }

    fn hints_for<L: Lines>(&self, lines: &L) -> &[u8]
        requires { IsHint self.now.hints.items }
        ensures { IsHint result.now }
    {
        if lines.takes_hints() {
            &self.hints
        } else {
            &[]
        }
    }
}

/// Where lines go.
pub trait Lines: Sink {
    /// Whether a person reads along, so that hints follow.
    fn takes_hints(&self) -> bool;
}

/// Lines that go to a sink.
#[derive(Drop)]
pub struct LinesTo<O: Sink> {
    pub sink: O,
    pub takes_hints: bool,
}

impl<O: Sink> Sink for LinesTo<O> {
    ghost state = { λ lines. O.state lines.sink };

    fn put(&mut self, bytes: &[u8]) -> Result<usize, SinkFault> {
        self.sink.put(bytes)
    }

    fn finish(&mut self) -> Result<(), SinkFault> {
        self.sink.finish()
    }
}

impl<O: Sink> Lines for LinesTo<O> {
    fn takes_hints(&self) -> bool {
        self.takes_hints
    }
}

// Writes this, if it is something. Where that fails, nothing is tried again.
fn say<L: Sink>(text: &[u8], lines: &mut L)
    ensures { Says text.now (L.state lines.old) (L.state lines.new) }
{
    if text.is_empty() {
        return;
    }
    let _ = write_bytes(text, lines);
}

/// Says that memory was refused.
pub(crate) fn say_no_memory<L: Sink>(lines: &mut L)
    ensures { Says (run_line (number_of MemoryFault)) (L.state lines.old) (L.state lines.new) }
{
    say(NO_MEMORY, lines)
}

fn say_output_failed<L: Sink>(lines: &mut L)
    ensures { Says (run_line (number_of OutputFault)) (L.state lines.old) (L.state lines.new) }
{
    say(OUTPUT_FAILED, lines)
}
