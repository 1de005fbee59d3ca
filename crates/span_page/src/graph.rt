//! The graph of the runs of a page: their stacks, added.
ghost use Rattle.std.specs.{List.join_with_byte, Prelude.{◌≡◌, ◌++◌, ◌≤◌, [], length, map, nat_le, string_bytes, IfErr, IfOk, OnOk}};
ghost use Rattle.span_page.specs.{json_text_of, labels_in, most_names, rows_of, KeyedSums, Stands, Bounds.IsFaultOf, Coded.{coded, coded_after, shared}, Data.{most_frames, stack_json}, Graph.{folded_row, frames_after, rows_json, value_label}};

use crate::data::MOST_FRAMES;
use crate::fault::{PageFault, check_length};
use serde_json::Value;
use span_report::stacks::StacksFault;
use span_stack_sums::StackSum;
use span_table::{ArgValue, Row};
use std::alloc::{AllocError, Global};

/// The stacks as data, or `null` where they have too many labels, or their graph too many frames.
pub(crate) fn graph_text(alloc: Global, stacks: StackSum) -> Result<String, PageFault>
    ensures text { IfOk result (λ text. (sums : KeyedSums) → Stands stacks.rows sums
        → string_bytes text ≡ rows_json (rows_of sums)) }
    ensures full { IfErr result (λ fault. (sums : KeyedSums) → Stands stacks.rows sums
        → IsFaultOf (rows_json (rows_of sums)) fault) }
{
    match stacks.into_rows() {
        Ok(rows) => rows_text(alloc, &rows),
        Err(StacksFault::TooLarge) => Ok(String::from_str(alloc, "null")?),
        Err(StacksFault::Memory) => Err(PageFault::Memory),
    }
}

#[tactic(auto, unfolding(crate::specs::Data::stacks_json), using(std::proofs::Common::append_assoc))]
fn rows_text(alloc: Global, rows: &[Row]) -> Result<String, PageFault>
    requires { labels_in rows.now ≤ most_names }
    ensures text { IfOk result (λ text. string_bytes text ≡ rows_json rows.now) }
    ensures full { IfErr result (IsFaultOf (rows_json rows.now)) }
{
    if !graph_fits(rows) {
        return Ok(String::from_str(alloc, "null")?);
    }
    let mut out = String::from_str(alloc, "[")?;
    put_rows(alloc, &mut out, rows)?;
    out.push(']')?;
    Ok(out)
}

// Whether the graph of the rows has no more frames than those of a page may have.
fn graph_fits(rows: &[Row]) -> bool
    ensures { result ≡ nat_le (frames_after [] (map folded_row rows.now)) most_frames }
{
    let mut left = MOST_FRAMES as usize;
    let mut before: &[Option<ArgValue>] = &[];
    for row in rows {
        let values = row.key.values();
        let more = values.len() - shared(before, values);
        if more > left {
            return false;
        }
        left -= more;
        before = values;
    }
    true
}

// Appends the stacks of rows, separated by commas. A few long labels may stand in very many stacks, so it stops as soon as there is more
// than a page may have.
fn put_rows(alloc: Global, out: &mut String, rows: &[Row]) -> Result<(), PageFault>
    ensures json { OnOk result (string_bytes out.new ≡ string_bytes out.old
        ++ join_with_byte 44 (map stack_json (coded_after [] (map folded_row rows.now)))) }
    ensures full { IfErr result (IsFaultOf (string_bytes out.old
        ++ join_with_byte 44 (map stack_json (coded_after [] (map folded_row rows.now))))) }
{
    let mut before: &[Option<ArgValue>] = &[];
    let mut comma = "";
    for row in rows {
        check_length(out.as_bytes())?;
        out.push_str(comma)?;
        put_row(alloc, out, before, row)?;
        before = row.key.values();
        comma = ",";
    }
    Ok(())
}

// Appends the stack of a row, without the frames with which it begins as the one before it does.
fn put_row(
    alloc: Global,
    out: &mut String,
    before: &[Option<ArgValue>],
    row: &Row,
) -> Result<(), AllocError>
    ensures { OnOk result (string_bytes out.new ≡ string_bytes out.old
        ++ stack_json (coded (map value_label before.now) (folded_row row.now))) }
{
    let values = row.key.values();
    let shared = shared(before, values);
    put_values(alloc, out, shared, &values[shared..], row.sums.total)
}

#[tactic(auto, unfolding(crate::specs::Data::stack_json), using(std::proofs::Common::append_assoc))]
fn put_values(
    alloc: Global,
    out: &mut String,
    shared: usize,
    others: &[Option<ArgValue>],
    time: u128,
) -> Result<(), AllocError>
    ensures { OnOk result (string_bytes out.new ≡ string_bytes out.old ++ stack_json
        (record { shared = shared; others = map value_label others.now; time = time })) }
{
    write!(out, "[{shared},[")?;
    put_labels(alloc, out, others)?;
    write!(out, "],\"{time}\"]")
}

// With how many labels two keys begin alike.
fn shared(before: &[Option<ArgValue>], values: &[Option<ArgValue>]) -> usize
    ensures alike { result ≡ shared (map value_label before.now) (map value_label values.now) }
    ensures within { result ≤ length values.now }
{
    let mut alike = 0;
    while alike < before.len()
        && alike < values.len()
        && label_of(&before[alike]) == label_of(&values[alike])
    {
        alike += 1;
    }
    alike
}

fn label_of(value: &Option<ArgValue>) -> &str
    ensures { result.now ≡ value_label value.now }
{
    match value {
        Some(ArgValue::Words(text)) => text.as_str(),
        _ => "-",
    }
}

// Appends the labels as JSON texts, separated by commas.
fn put_labels(
    alloc: Global,
    out: &mut String,
    values: &[Option<ArgValue>],
) -> Result<(), AllocError>
    ensures { OnOk result (string_bytes out.new ≡ string_bytes out.old
        ++ join_with_byte 44 (map json_text_of (map value_label values.now))) }
{
    let Some((first, later)) = values.split_first() else {
        return Ok(());
    };
    put_label(alloc, out, first)?;
    for value in later {
        out.push(',')?;
        put_label(alloc, out, value)?;
    }
    Ok(())
}

#[tactic(auto, unfolding(span_report::specs::Lines::json_text_of))]
fn put_label(alloc: Global, out: &mut String, value: &Option<ArgValue>) -> Result<(), AllocError>
    ensures { OnOk result (string_bytes out.new
        ≡ string_bytes out.old ++ json_text_of (value_label value.now)) }
{
    let json = Value::try_from_str(alloc, label_of(value))?.to_string(alloc)?;
    out.push_str(json.as_str())
}
