//! What the heads of texts for people have in common, and words in a width.
ghost use Rattle.std.specs.Prelude.{◌≡◌, ◌++◌, string_bytes, OnOk};
ghost use Rattle.span_table_text.specs.{right_in, Lines.{runs_line, shown_line}};

use crate::shown::Shown;
use span_table::TableCounts;
use std::alloc::AllocError;

/// Appends the line of runs, where the head says how many there are.
#[tactic(auto, unfolding(crate::specs::Lines::runs_line))]
pub fn put_runs(out: &mut String, counts: &TableCounts, says_runs: bool) -> Result<(), AllocError>
    ensures { OnOk result (string_bytes out.new
        ≡ string_bytes out.old ++ runs_line says_runs counts.now) }
{
    if !says_runs {
        return Ok(());
    }
    let (runs, files, unread) = (counts.runs, counts.files, counts.unread);
    writeln!(out, "runs {runs} files {files} unread {unread}")
}

/// Appends the text, right in the width.
pub fn put_right(out: &mut String, width: usize, text: &str) -> Result<(), AllocError>
    ensures { OnOk result (string_bytes out.new ≡ string_bytes out.old ++ right_in width text.now) }
{
    for _ in text.len()..width {
        out.push(' ')?;
    }
    out.push_str(text)
}

/// Appends how many rows are shown of how many, where not all are wanted.
#[tactic(auto, unfolding(crate::specs::Lines::shown_line))]
pub fn put_shown(out: &mut String, wanted: &Shown, shown: u128, all: u128) -> Result<(), AllocError>
    ensures { OnOk result (string_bytes out.new
        ≡ string_bytes out.old ++ shown_line wanted.now shown all) }
{
    if wanted.is_all() {
        return Ok(());
    }
    writeln!(out, "shown {shown} of {all}")
}
