//! The id of an event, checked and taken at once.
ghost use Rattle.std.specs.{Fmt.signed_decimal, Prelude.{◌≡◌, ◌||◌, None, IfOk, IfErr, if◌then◌else◌}};
ghost use Rattle.span_read.specs.{Element.{where_read, id_fault}, Fields.{key_of, key_with}, Phase.reads_id, Refusal.IsForFault};

use crate::error::refusal::Refusal;
use crate::fields::FieldValue;
use crate::phase::reads_id;
use span_event::{ArgValue, BoxedId, Field, IdKey, ItemFault, Phase, Text};
use std::alloc::{AllocError, Global};

/// The key that `id` or `id2` gives, where the phase reads one and one of them is there.
pub(crate) fn take_key(
    alloc: Global,
    phase: Phase,
    pid: i64,
    id: &Option<FieldValue>,
    id2: &Option<FieldValue>,
) -> Result<Option<BoxedId>, Refusal>
    ensures key { IfOk result (λ key.
        key ≡ (if reads_id phase then key_of pid id.now id2.now else None)) }
    ensures right { IfOk result
        (λ key. where_read (reads_id phase) (id_fault id.now id2.now) ≡ None) }
    ensures refused { IfErr result
        (IsForFault (where_read (reads_id phase) (id_fault id.now id2.now))) }
{
    if !reads_id(phase) || (id.is_none() && id2.is_none()) {
        return Ok(None);
    }
    match key_of(alloc, pid, id, id2)? {
        Some(key) => Ok(Some(key)),
        None => Err(Refusal::Fault(ItemFault::BadField(Field::Id))),
    }
}

fn key_of(
    alloc: Global,
    pid: i64,
    id: &Option<FieldValue>,
    id2: &Option<FieldValue>,
) -> Result<Option<BoxedId>, AllocError>
    ensures { IfOk result (λ key. key ≡ key_of pid id.now id2.now) }
{
    match (id, id2) {
        (Some(FieldValue::Plain(id)), _) => key_with(alloc, None, id),
        (None, Some(FieldValue::Pairs(parts))) => {
            match (parts.get("global"), parts.get("local")) {
                (Some(global), _) => key_with(alloc, None, global),
                (None, Some(local)) => key_with(alloc, Some(pid), local),
                (None, None) => Ok(None),
            }
        }
        _ => Ok(None),
    }
}

fn key_with(alloc: Global, home: Option<i64>, id: &ArgValue) -> Result<Option<BoxedId>, AllocError>
    ensures { IfOk result (λ key. key ≡ key_with home id.now) }
{
    let id = match id {
        ArgValue::Words(text) => text.try_clone(alloc)?,
        ArgValue::Whole(number) => decimal_text(alloc, *number)?,
        _ => return Ok(None),
    };
    Ok(Some(BoxedId::new(alloc, IdKey { home, id })?))
}

fn decimal_text(alloc: Global, whole: i64) -> Result<Text, AllocError>
    ensures { IfOk result (λ text. text ≡ signed_decimal whole) }
{
    let text = format!(in alloc; "{whole}")?;
    Text::of(alloc, text.as_str())
}
