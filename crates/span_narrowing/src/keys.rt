//! The keys of a table, as it has them once it is narrowed.
ghost use Rattle.std.specs.Prelude.{◌≡◌, IfOk};
ghost use Rattle.template_names.specs.Merged.{merged};
ghost use Rattle.span_narrowing.specs.Narrowed.{has_templates, kept_key, merged_value, merged_values, narrowed_key};

use crate::conditions::{Condition, all_hold};
use crate::narrowing::Narrowing;
use span_event::{ArgValue, Text};
use span_table::{Column, Key, copy_of};
use std::alloc::{AllocError, Global};
use template_names::merged;

/// The key of a row of a table by these columns, as the narrowed table has it. None where a condition doesn't hold.
pub(crate) fn narrowed_key(
    alloc: Global,
    narrowing: &Narrowing,
    columns: &[Column],
    key: &Key,
) -> Result<Option<Key>, AllocError>
    ensures { IfOk result (λ found. found ≡ narrowed_key narrowing.now columns.now key.now) }
{
    if !narrowing.merges {
        return kept_key(alloc, &narrowing.conditions, key.values());
    }
    let values = merged_values(alloc, columns, key.values())?;
    kept_key(alloc, &narrowing.conditions, &values)
}

// The values before those of the conditions, if all of these hold.
fn kept_key(
    alloc: Global,
    conditions: &[Condition],
    values: &[Option<ArgValue>],
) -> Result<Option<Key>, AllocError>
    ensures { IfOk result (λ found. found ≡ kept_key conditions.now values.now) }
{
    let shown = values.len().saturating_sub(conditions.len());
    if !all_hold(alloc, conditions, &values[shown..])? {
        return Ok(None);
    }
    Ok(Some(Key::of(copies_of(alloc, &values[..shown])?)))
}

fn copies_of(
    alloc: Global,
    values: &[Option<ArgValue>],
) -> Result<Vec<Option<ArgValue>>, AllocError>
    ensures { IfOk result (λ copies. copies.items ≡ values.now) }
{
    let mut copies = Vec::with_capacity(alloc, values.len())?;
    for value in values {
        copies.push(copy_of(alloc, value.as_ref())?)?;
    }
    Ok(copies)
}

// The values of these columns, with merged texts where templates may stand in them.
fn merged_values(
    alloc: Global,
    columns: &[Column],
    values: &[Option<ArgValue>],
) -> Result<Vec<Option<ArgValue>>, AllocError>
    ensures { IfOk result (λ made. made.items ≡ merged_values columns.now values.now) }
{
    let mut made = Vec::with_capacity(alloc, values.len())?;
    let mut left = columns;
    let mut rest = values;
    'values: while let (Some((column, later)), Some((value, behind))) = (
        left.split_first(),
        rest.split_first(),
    ) {
        made.push(merged_value(alloc, column, value)?)?;
        left = later;
        rest = behind;
    }
    Ok(made)
}

fn merged_value(
    alloc: Global,
    column: &Column,
    value: &Option<ArgValue>,
) -> Result<Option<ArgValue>, AllocError>
    ensures { IfOk result (λ made. made ≡ merged_value column.now value.now) }
{
    if !has_templates(column) {
        return copy_of(alloc, value.as_ref());
    }
    match value {
        Some(ArgValue::Words(text)) => Ok(Some(ArgValue::Words(merged_text(alloc, text)?))),
        value => copy_of(alloc, value.as_ref()),
    }
}

fn has_templates(column: &Column) -> bool
    ensures { result ≡ has_templates column.now }
{
    matches!(
        column,
        Column::Name | Column::Argument(_) | Column::ParentName | Column::ParentArgument(_)
    )
}

fn merged_text(alloc: Global, text: &Text) -> Result<Text, AllocError>
    ensures { IfOk result (λ whole. whole ≡ merged text.now) }
{
    match merged(alloc, text.as_str())? {
        Some(whole) => Text::of(alloc, whole.as_str()),
        None => text.try_clone(alloc),
    }
}
