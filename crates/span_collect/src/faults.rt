//! The lines that say how files failed.
ghost use Rattle.std.specs.Prelude.{◌≡◌, ◌++◌, length, string_bytes, OnOk, IfOk};
ghost use Rattle.span_collect.specs.FaultLines.{end_line, end_lines, fault_line, stop_line};

use crate::files::{FileEnd, Input};
use crate::words::numbered_text;
use span_event::{Fault, Text};
use span_report::json_text;
use std::alloc::{AllocError, Global};

/// A file's line with a number and its word.
fn put_fault(alloc: Global, out: &mut String, name: &Text, code: u16) -> Result<(), AllocError>
    ensures { OnOk result (string_bytes out.new
        ≡ string_bytes out.old ++ fault_line name.now code) }
{
    let name = json_text(alloc, name)?;
    let fault = numbered_text(alloc, code)?;
    writeln!(out, "tracebook: {name}: {fault}")
}

fn put_stop(
    alloc: Global,
    out: &mut String,
    name: &Text,
    code: u16,
    done: u32,
) -> Result<(), AllocError>
    ensures { OnOk result (string_bytes out.new
        ≡ string_bytes out.old ++ stop_line name.now code done) }
{
    let name = json_text(alloc, name)?;
    let fault = numbered_text(alloc, code)?;
    writeln!(out, "tracebook: {name}: {fault} after {done}")
}

fn put_end(alloc: Global, out: &mut String, name: &Text, end: FileEnd) -> Result<(), AllocError>
    ensures { OnOk result (string_bytes out.new ≡ string_bytes out.old ++ end_line name.now end) }
{
    match end {
        FileEnd::Read { .. } => Ok(()),
        FileEnd::Refused { code, .. } => put_fault(alloc, out, name, code),
        FileEnd::Stopped { done, cause, .. } => put_stop(alloc, out, name, cause.code(), done),
        FileEnd::NotStarted => put_fault(alloc, out, name, Fault::NotStarted.code()),
    }
}

/// The line of a file and a fault: the file's name, the number and its word.
pub fn fault_line_of(alloc: Global, name: &Text, code: u16) -> Result<String, AllocError>
    ensures { IfOk result (λ line. string_bytes line ≡ fault_line name.now code) }
{
    let mut line = String::new(alloc);
    put_fault(alloc, &mut line, name, code)?;
    Ok(line)
}

/// One line for each end other than `Read`, in order.
pub fn fault_lines(alloc: Global, files: &[Input], ends: &[FileEnd]) -> Result<String, AllocError>
    requires { length files.now ≡ length ends.now }
    ensures { IfOk result (λ lines. string_bytes lines ≡ end_lines files.now ends.now) }
{
    let mut out = String::new(alloc);
    for (place, file) in files.iter().enumerate() {
        put_end(alloc, &mut out, &file.name, ends[place])?;
    }
    Ok(out)
}
