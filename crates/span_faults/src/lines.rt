//! Fault lines of a run.
ghost use Rattle.std.specs.Prelude.{◌≡◌, length, IfOk, string_bytes};
ghost use Rattle.span_faults.specs.FaultLines.{fault_text, run_line};

use span_collect::{Input, RunEnd, fault_line_of, fault_lines, numbered_text};
use std::alloc::{AllocError, Global};

/// The lines of files that were not read whole, and one where a seal was not taken.
pub fn fault_text(alloc: Global, files: &[Input], end: &RunEnd) -> Result<String, AllocError>
    requires { length files.now ≡ length end.now.ends.items }
    ensures { IfOk result (λ text. string_bytes text ≡ fault_text files.now end.now) }
{
    let mut text = fault_lines(alloc, files, &end.ends)?;
    if let Some(cause) = end.sealing.cause {
        let line = run_line(alloc, cause.code())?;
        text.push_str(line.as_str())?;
    }
    Ok(text)
}

/// The line of a run as a whole.
pub fn run_line(alloc: Global, code: u16) -> Result<String, AllocError>
    ensures { IfOk result (λ line. string_bytes line ≡ run_line code) }
{
    let fault = numbered_text(alloc, code)?;
    format!(in alloc; "tracebook: {fault}\n")
}
