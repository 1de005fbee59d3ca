//! The text of stacks that were added.
ghost use Rattle.std.specs.Prelude.{◌≡◌, ◌++◌, ◌-◌, ◌≤◌, ◌<◌, length, IfErr, IfOk, OnOk};
ghost use Rattle.span_stack_sums.specs.{most_names, TooLarge, Text.{key_frames, labels_in, lines_of, row_line, value_frame}};

use span_report::stacks::{StacksFault, put_frame};
use span_table::{ArgValue, Key, Row};
use std::alloc::{AllocError, Global};

/// How many labels they may have, each stack as many as it is deep.
pub(crate) const MOST_LABELS: u64 = 67_108_864;

// The first values of a key, which are the names of a process and a thread.
const NAMES: usize = 2;

/// How many labels a key has.
pub(crate) fn labels_of(key: &Key) -> usize
    ensures { result ≡ length key.now - 2 }
{
    key.values().len().saturating_sub(NAMES)
}

/// A line for each row.
pub(crate) fn text_of(alloc: Global, rows: &[Row]) -> Result<Vec<u8>, AllocError>
    ensures { IfOk result (λ text. text.items ≡ lines_of rows.now) }
{
    let mut out = Vec::new(alloc);
    put_rows(alloc, &mut out, rows)?;
    Ok(out)
}

/// Refuses rows that have too many labels.
pub(crate) fn check_labels(rows: &[Row]) -> Result<(), StacksFault>
    ensures fits { OnOk result (labels_in rows.now ≤ most_names) }
    ensures full { IfErr result (λ fault. most_names < labels_in rows.now) }
{
    let mut left = MOST_LABELS;
    for row in rows {
        let labels = labels_of(&row.key) as u64;
        if labels > left {
            return Err(StacksFault::TooLarge);
        }
        left -= labels;
    }
    Ok(())
}

fn put_rows(alloc: Global, out: &mut Vec<u8>, rows: &[Row]) -> Result<(), AllocError>
    ensures { OnOk result (out.new.items ≡ out.old.items ++ lines_of rows.now) }
{
    for row in rows {
        put_row(alloc, out, row)?;
    }
    Ok(())
}

fn put_row(alloc: Global, out: &mut Vec<u8>, row: &Row) -> Result<(), AllocError>
    ensures { OnOk result (out.new.items ≡ out.old.items ++ row_line row.now) }
{
    put_key(out, row.key.values())?;
    let ticks = row.sums.total;
    out.extend_from_slice(format!(in alloc; " {ticks}\n")?.as_bytes())
}

// Appends the frames of a key, separated by `;`.
fn put_key(out: &mut Vec<u8>, values: &[Option<ArgValue>]) -> Result<(), AllocError>
    ensures { OnOk result (out.new.items ≡ out.old.items ++ key_frames values.now) }
{
    let Some((first, later)) = values.split_first() else {
        return Ok(());
    };
    put_value(out, first)?;
    for value in later {
        out.push(b';')?;
        put_value(out, value)?;
    }
    Ok(())
}

fn put_value(out: &mut Vec<u8>, value: &Option<ArgValue>) -> Result<(), AllocError>
    ensures { OnOk result (out.new.items ≡ out.old.items ++ value_frame value.now) }
{
    match value {
        Some(ArgValue::Words(text)) => put_frame(out, text),
        _ => {
            out.push(b'-')?;
            Ok(())
        }
    }
}
