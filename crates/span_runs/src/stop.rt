//! Why there is no result.
ghost use Rattle.std.specs.Prelude.{◌≡◌, List, ℕ, IfOk, string_bytes};
ghost use Rattle.span_runs.specs.{IsHint, fault_line, run_line, Stops.{HaltsAfter, IsHinted, OfStop}, Source.printed};

use crate::source::Name;
use span_collect::fault_line_of;
use span_faults::run_line;
use std::alloc::{AllocError, Global};

/// What is said where something stopped: fault lines, and hints, for which there may have been no memory.
#[derive(Drop)]
pub struct Stop {
    pub lines: Vec<u8>,
    pub hints: Vec<u8>,
}

/// Why there is no result.
#[derive(Drop)]
pub enum Halt {
    /// Something stopped, as is said.
    Stopped(Stop),
    /// 31: memory was refused.
    Memory,
}

impl From<AllocError> for Halt {
    ghost use Rattle.std.specs.Prelude.{◌≡◌};
    ghost use Rattle.span_runs.specs.declared.stop.Halt.TheVariants.{Memory};

    ghost from_gives = { λ _ e. e ≡ Memory };

    fn from(_refused: AllocError) -> Halt {
        Halt::Memory
    }
}

impl Halt {
    /// A run, or all of them, stopped with this number.
    pub fn of_run(alloc: Global, code: u16) -> Halt
        ensures { OfStop (λ lines. lines ≡ run_line code) result }
    {
        Halt::saying(alloc, run_line(alloc, code))
    }

    /// This was read, and stopped with this number.
    pub fn of_name(alloc: Global, name: &Name, code: u16) -> Halt
        ensures { OfStop (λ lines. lines ≡ fault_line (printed name.now) code) result }
    {
        match name.printed(alloc) {
            Ok(name) => Halt::saying(alloc, fault_line_of(alloc, &name, code)),
            Err(_) => Halt::Memory,
        }
    }

    // This line is said, if there was memory for it.
    fn saying(alloc: Global, line: Result<String, AllocError>) -> Halt
        ensures { (text : List ℕ) → IfOk line (λ made. string_bytes made ≡ text)
            → OfStop (λ lines. lines ≡ text) result }
    {
        match line {
            Ok(line) => Halt::Stopped(Stop {
                lines: line.into_bytes(),
                hints: Vec::new(alloc),
            }),
            Err(_) => Halt::Memory,
        }
    }

    /// With these lines before.
    pub fn after(self, lines: Vec<u8>) -> Halt
        ensures { HaltsAfter lines.items self result }
    {
        let Halt::Stopped(stop) = self else {
            return Halt::Memory;
        };
        let Stop { lines: own, hints } = stop;
        let mut lines = lines;
        match lines.extend_from_slice(&own) {
            Ok(()) => Halt::Stopped(Stop { lines, hints }),
            Err(_) => Halt::Memory,
        }
    }

    /// With this hint behind, if there was memory for it.
    pub fn with_hint(self, hint: Result<String, AllocError>) -> Halt
        requires { IfOk hint (λ made. IsHint (string_bytes made)) }
        ensures { IsHinted self result }
    {
        match (self, hint) {
            (Halt::Stopped(stop), Ok(hint)) => Halt::Stopped(Stop {
                lines: stop.lines,
                hints: hint.into_bytes(),
            }),
            (halt, _) => halt,
        }
    }
}
