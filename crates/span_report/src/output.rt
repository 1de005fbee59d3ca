//! Writes the report of a ledger to a sink.
ghost use Rattle.std.specs.Prelude.{◌≡◌, ◌≤◌, ◌↔◌, ℕ, List, Err, length, take, IfErr, IfOk, IsErr, OnOk};
ghost use Rattle.span_report.specs.{Output.{write_code, WriteLeaves}, Report.report_of, Sink.{TakesBytes, Fails}};

use crate::sink::Sink;
use crate::text::report;
use span_event::{Fault, Unit};
use span_ledger::Ledger;
use std::alloc::{AllocError, Global};

/// Why a report was not written whole.
#[derive(Clone, Copy, Debug, PartialEq, Eq)]
pub enum WriteFault {
    /// 31: memory was refused, and nothing was written.
    Memory,
    /// 51: the output failed after this many bytes.
    Output { written: u64 },
}

impl WriteFault {
    pub fn code(&self) -> u16
        ensures { result ≡ write_code self.now }
    {
        match self {
            WriteFault::Memory => Fault::Memory.code(),
            WriteFault::Output { .. } => Fault::Output.code(),
        }
    }
}

/// Writes the report of the ledger's journal, whose times are in this unit. The first fault of the output ends it, and nothing is
/// tried again.
pub fn write_report<O: Sink>(
    alloc: Global,
    unit: Unit,
    ledger: &Ledger,
    out: &mut O,
) -> Result<(), WriteFault>
    ensures ok { OnOk result
        (TakesBytes (O.state out.old) (O.state out.new) (report_of unit ledger.now.journal)) }
    ensures fault { IfErr result (λ fault.
        WriteLeaves fault (report_of unit ledger.now.journal) (O.state out.old) (O.state out.new)) }
{
    write_made(report(alloc, unit, ledger), out)
}

// Writes a text, if there was memory to make it. The first fault of the output ends it, and nothing is tried again.
fn write_made<O: Sink>(made: Result<Vec<u8>, AllocError>, out: &mut O) -> Result<(), WriteFault>
    ensures ok { (text : List ℕ) → IfOk made (λ bytes. bytes.items ≡ text)
        → OnOk result (TakesBytes (O.state out.old) (O.state out.new) text) }
    ensures fault { (text : List ℕ) → IfOk made (λ bytes. bytes.items ≡ text)
        → IfErr result (λ fault. WriteLeaves fault text (O.state out.old) (O.state out.new)) }
    ensures memory { (result ≡ Err WriteFault.Memory) ↔ IsErr made }
{
    let Ok(text) = made else {
        return Err(WriteFault::Memory);
    };
    write_bytes(&text, out).map_err(|written| WriteFault::Output { written })
}

/// Puts the bytes until all are taken, then finishes once. The first fault of the output ends it; the error is how many bytes
/// it took.
pub fn write_bytes<O: Sink>(bytes: &[u8], out: &mut O) -> Result<(), u64>
    ensures ok { OnOk result (TakesBytes (O.state out.old) (O.state out.new) bytes.now) }
    ensures within { IfErr result (λ written. written ≤ length bytes.now) }
    ensures fault { IfErr result (λ written.
        Fails (O.state out.old) (O.state out.new) (take written bytes.now)) }
{
    let mut taken = 0;
    while taken < bytes.len() {
        match out.put(&bytes[taken..]) {
            Ok(n) => taken += n,
            Err(_) => return Err(taken as u64),
        }
    }
    match out.finish() {
        Ok(()) => Ok(()),
        Err(_) => Err(taken as u64),
    }
}
