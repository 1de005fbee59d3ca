//! Warnings: lines that say of which files events were refused.
ghost use Rattle.std.specs.Prelude.{◌≡◌, ◌++◌, ◌-◌, length, string_bytes, IfOk, OnOk};
ghost use Rattle.span_faults.specs.Warnings.{most_listed, unlisted_line, warning_line, warning_lines};

use span_collect::numbered_text;
use span_collect::refusals::Warning;
use span_report::json_text;
use std::alloc::{AllocError, Global};

// The most files that are listed.
const MOST_LISTED: usize = 16;

/// The lines of these files: one of each of the first 16, and one that says how many more there are.
pub fn warning_lines(alloc: Global, warnings: &[Warning]) -> Result<String, AllocError>
    ensures { IfOk result (λ lines. string_bytes lines ≡ warning_lines warnings.now) }
{
    let mut lines = String::new(alloc);
    let listed = warnings.len().min(MOST_LISTED);
    for warning in &warnings[..listed] {
        put_warning(alloc, &mut lines, warning)?;
    }
    put_unlisted(&mut lines, warnings.len() - listed)?;
    Ok(lines)
}

#[tactic(auto, unfolding(crate::specs::Warnings::warning_line))]
fn put_warning(alloc: Global, out: &mut String, warning: &Warning) -> Result<(), AllocError>
    ensures { OnOk result (string_bytes out.new
        ≡ string_bytes out.old ++ warning_line warning.now) }
{
    let name = json_text(alloc, &warning.name)?;
    let fault = numbered_text(alloc, warning.code)?;
    let (refused, accepted) = (warning.refused, warning.accepted);
    let events = u64::from(accepted) + u64::from(refused);
    writeln!(
        out,
        "tracebook: warning: {name}: {refused} of {events} events refused, most by {fault}"
    )
}

// How many files are not listed.
fn put_unlisted(out: &mut String, more: usize) -> Result<(), AllocError>
    ensures { OnOk result (string_bytes out.new ≡ string_bytes out.old ++ unlisted_line more) }
{
    if more == 0 {
        return Ok(());
    }
    writeln!(
        out,
        "tracebook: warning: files with refused events that are not listed: {more}"
    )
}
