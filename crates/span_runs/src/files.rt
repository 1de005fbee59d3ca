//! A file as it is read.
ghost use Rattle.std.specs.Prelude.{◌≡◌, IfErr, IfOk, string_bytes};
ghost use Rattle.span_runs.specs.{IsHint, unread_line, Inputs.IsInput, Source.printed, Stops.OfStop};

use crate::source::{Name, Source, SourceFault};
use crate::stop::Halt;
use span_collect::{Input, Settings};
use span_event::Fault;
use span_faults::{Hint, Reason, hint_line};
use std::alloc::{AllocError, Global};

/// What the name stands for. One byte more is read of it than a file may have, so that a longer one is refused.
pub fn read_input<S: Source>(
    alloc: Global,
    source: &S,
    name: &Name,
    settings: &Settings,
) -> Result<Input, Halt>
    ensures read { IfOk result (IsInput (S.bytes source.now) settings.now name.now) }
    ensures unread { IfErr result (OfStop (λ lines. lines ≡ unread_line (printed name.now))) }
{
    let printed = match name.printed(alloc) {
        Ok(printed) => printed,
        Err(_) => return Err(Halt::Memory),
    };
    match source.read(name, u64::from(settings.format.most_bytes) + 1) {
        Ok(bytes) => Ok(Input {
            name: printed,
            bytes,
        }),
        Err(fault) => Err(unread(alloc, name, fault)),
    }
}

/// What the name stands for was not read.
pub fn unread(alloc: Global, name: &Name, fault: SourceFault) -> Halt
    ensures { OfStop (λ lines. lines ≡ unread_line (printed name.now)) result }
{
    match fault {
        SourceFault::NotOpened(reason) => {
            let code = Fault::NotOpened.code();
            Halt::of_name(alloc, name, code).with_hint(hint_of(alloc, name, reason))
        }
        SourceFault::Memory => Halt::Memory,
    }
}

fn hint_of(alloc: Global, name: &Name, reason: Reason) -> Result<String, AllocError>
    ensures { IfOk result (λ line. IsHint (string_bytes line)) }
{
    let name = name.printed(alloc)?;
    hint_line(alloc, &name, Hint::Unreadable(reason))
}
