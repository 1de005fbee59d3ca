//! Rows in order are merged with others.
ghost use Rattle.std.specs.Prelude.{◌≡◌, ◌+◌, ◌<◌, ◌++◌, [], length, None, IfOk, IsSome};
ghost use Rattle.std.specs.Option.{option_to_list};
ghost use Rattle.span_table.specs.{Adding.keyed_rows, Merging.{heads_cmp, merged}, Tables.{RowsRise, rows_of}};

use crate::table::Row;
use std::alloc::AllocError;
use std::cmp::Ordering;
use std::collections::VecDeque;

/// The rows of both lists in order: two of the same key are added. Each row is moved once.
pub fn merged(rows: Vec<Row>, more: Vec<Row>) -> Result<Vec<Row>, AllocError>
    requires rise { RowsRise rows.items }
    requires others { RowsRise more.items }
    ensures rows { IfOk result (λ all.
        all.items ≡ rows_of (keyed_rows rows.items ++ keyed_rows more.items)) }
    ensures rise { IfOk result (λ all. RowsRise all.items) }
{
    if more.is_empty() {
        return Ok(rows);
    }
    if rows.is_empty() {
        return Ok(more);
    }
    let room = rows.len().saturating_add(more.len());
    let mut all = Vec::with_capacity(*rows.allocator(), room)?;
    let (mut left, mut right) = (VecDeque::from(rows), VecDeque::from(more));
    while let Some(row) = next_row(&mut left, &mut right)? {
        all.push(row)?;
    }
    Ok(all)
}

// Takes the first row of two lists in order: the lesser one, or both added.
fn next_row(left: &mut VecDeque<Row>, right: &mut VecDeque<Row>) -> Result<Option<Row>, AllocError>
    ensures rows { IfOk result (λ first. merged left.old.items right.old.items
        ≡ option_to_list first ++ merged left.new.items right.new.items) }
    ensures all { IfOk result (λ first. first ≡ None → merged left.old.items right.old.items ≡ []) }
    ensures fewer { IfOk result (λ first. IsSome first
        → length left.new.items + length right.new.items
        < length left.old.items + length right.old.items) }
{
    match heads_order(left, right) {
        Ordering::Less => Ok(left.pop_front()),
        Ordering::Greater => Ok(right.pop_front()),
        Ordering::Equal => {
            let (Some(mut row), Some(other)) = (left.pop_front(), right.pop_front()) else {
                return Ok(None);
            };
            row.sums = row.sums.plus(&other.sums)?;
            Ok(Some(row))
        }
    }
}

// How the first rows of two lists compare. Where there is none all keys of the other are less.
fn heads_order(left: &VecDeque<Row>, right: &VecDeque<Row>) -> Ordering
    ensures { result ≡ heads_cmp left.now.items right.now.items }
{
    match (left.front(), right.front()) {
        (Some(one), Some(other)) => one.key.cmp(&other.key),
        (Some(_), None) => Ordering::Less,
        (None, _) => Ordering::Greater,
    }
}
