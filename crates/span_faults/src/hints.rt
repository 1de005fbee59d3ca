//! Hints: lines that follow fault lines where a person reads along, and say what may help.
ghost use Rattle.std.specs.Prelude.{string_bytes, IfOk};
ghost use Rattle.span_faults.specs.FaultLines.{IsHint};

use crate::remedies::{Hint, MANY_FILES, NO_NAMES, ONE_BASE, RefusalCounts, hint_of_bytes};
use span_collect::{Collected, FileEnd, Input};
use span_event::{Fault, Text, Unit};
use span_report::json_text;
use std::alloc::{AllocError, Global};

/// What may help with the files of a run. What finds no memory is left out.
pub fn hints_of(alloc: Global, files: &[Input], collected: &Collected, unit: Unit) -> Vec<u8>
    ensures { IsHint result.items }
{
    let mut hints = Vec::new(alloc);
    let Ok(counts) = RefusalCounts::of(alloc, &collected.ledger, unit) else {
        return hints;
    };
    for (file, end) in files.iter().zip(&collected.end.ends) {
        if let FileEnd::Read { caller, items } = end {
            push_hint(
                alloc,
                &mut hints,
                &file.name,
                counts.fractions_of(*caller, *items),
            );
        }
        push_hint(
            alloc,
            &mut hints,
            &file.name,
            hint_of_end(file, end, &counts),
        );
    }
    drop(counts);
    hints
}

// What else may help with a file that ended so.
fn hint_of_end(file: &Input, end: &FileEnd, counts: &RefusalCounts) -> Option<Hint> {
    match end {
        FileEnd::Read { caller, items } => counts.most_of(*caller, *items),
        FileEnd::Refused { code, .. } => hint_of_refusal(&file.bytes, *code),
        _ => None,
    }
}

// What may help with a file of these bytes that was refused as a whole, with this number.
fn hint_of_refusal(bytes: &[u8], code: u16) -> Option<Hint> {
    match Fault::of_code(code)? {
        Fault::NotJson => Some(hint_of_bytes(bytes)),
        Fault::NotTrace => Some(Hint::NotTrace),
        Fault::TooLarge if bytes.len() > u32::MAX as usize => Some(Hint::TooLarge),
        Fault::TooLarge | Fault::TooMany => Some(Hint::Large),
        _ => None,
    }
}

// Appends what may help with a file, if anything does and there is memory.
fn push_hint(alloc: Global, hints: &mut Vec<u8>, name: &Text, hint: Option<Hint>)
    ensures { IsHint hints.old.items → IsHint hints.new.items }
{
    let Some(hint) = hint else {
        return;
    };
    if let Ok(line) = hint_line(alloc, name, hint) {
        let _ = hints.extend_from_slice(line.as_bytes());
    }
}

/// The line of a hint for a file.
pub fn hint_line(alloc: Global, name: &Text, hint: Hint) -> Result<String, AllocError>
    ensures { IfOk result (λ line. IsHint (string_bytes line)) }
{
    let name = json_text(alloc, name)?;
    let rest = format!(in alloc; "{name}: {hint}\n")?;
    format!(in alloc; "hint: {rest}")
}

/// The hint for more files than a run may have.
pub fn many_files(alloc: Global) -> Result<String, AllocError>
    ensures { IfOk result (λ line. IsHint (string_bytes line)) }
{
    String::from_str(alloc, MANY_FILES)
}

/// The hint for a comparison of one file with several.
pub fn one_base(alloc: Global) -> Result<String, AllocError>
    ensures { IfOk result (λ line. IsHint (string_bytes line)) }
{
    String::from_str(alloc, ONE_BASE)
}

/// The hint for a list without names.
pub fn no_names(alloc: Global) -> Result<String, AllocError>
    ensures { IfOk result (λ line. IsHint (string_bytes line)) }
{
    String::from_str(alloc, NO_NAMES)
}
