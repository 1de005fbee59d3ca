//! The item of one element of a trace.
ghost use Rattle.std.specs.Prelude.{◌≡◌, IfOk};
ghost use Rattle.serde_json.specs.View.{view};
ghost use Rattle.span_read.specs.{IsGoodItem, Element.{item_of_data, item_of_fields}, Time.IsItemInRange};

mod event;
mod id;
mod members;
mod time;

use crate::element::event::event_of;
use crate::error::refusal::Refusal;
use crate::fields::Fields;
use crate::phase::phase_of;
use crate::value_fields::fields_of_members;
use serde_json::Value;
use span_event::{Item, ItemFault, Unit};
use std::alloc::{AllocError, Global};

/// The item that a value of a trace's array is, in a run of this unit. A fault of the item is no error of the call.
pub fn item_of(alloc: Global, unit: Unit, value: &Value) -> Result<Item, AllocError>
    ensures item { IfOk result (λ item. item ≡ item_of_data unit (view value.now)) }
    ensures good { IfOk result IsGoodItem }
    ensures in_range { IfOk result (IsItemInRange unit) }
{
    match value {
        Value::Object(members) => {
            let mut fields = fields_of_members(alloc, members)?;
            item_of_fields(alloc, unit, &mut fields)
        }
        _ => Ok(Item::Bad(ItemFault::NotObject)),
    }
}

/// Texts and arguments are taken out of the fields.
pub(crate) fn item_of_fields(
    alloc: Global,
    unit: Unit,
    fields: &mut Fields,
) -> Result<Item, AllocError>
    ensures { IfOk result (λ item. item ≡ item_of_fields unit fields.old) }
{
    let letter = match fields.ph.take() {
        Some(value) => value.into_words(),
        None => None,
    };
    let Some(letter) = letter else {
        return Ok(Item::Bad(ItemFault::NoPhase));
    };
    let Some(phase) = phase_of(letter.as_str()) else {
        return Ok(Item::Other);
    };
    match event_of(alloc, unit, phase, fields) {
        Ok(event) => Ok(Item::Good(event)),
        Err(Refusal::Fault(fault)) => Ok(Item::Bad(fault)),
        Err(Refusal::Memory) => Err(AllocError),
    }
}
