//! The fields of an event, as the members of a `serde_json` object give them.
ghost use Rattle.std.specs.Prelude.{◌≡◌, IfOk};
ghost use Rattle.serde_json.specs.{Data.number, View.{view, members_view, number_view}};
ghost use Rattle.span_read.specs.Fields.{arg_value, pairs_of, field_value, field_at, fields_of};

use crate::fields::{FieldValue, Fields};
use serde_json::{Map, Number, Value};
use span_event::{ArgValue, Args, Text};
use std::alloc::{AllocError, Global};

type Members = Map<String, Value>;

pub(crate) fn fields_of_members(alloc: Global, members: &Members) -> Result<Fields, AllocError>
    ensures { IfOk result (λ fields. fields ≡ fields_of (members_view members.now.entries)) }
{
    Ok(Fields {
        ph: field_at(alloc, members, "ph")?,
        ts: field_at(alloc, members, "ts")?,
        dur: field_at(alloc, members, "dur")?,
        pid: field_at(alloc, members, "pid")?,
        tid: field_at(alloc, members, "tid")?,
        name: field_at(alloc, members, "name")?,
        cat: field_at(alloc, members, "cat")?,
        id: field_at(alloc, members, "id")?,
        id2: field_at(alloc, members, "id2")?,
        scope: field_at(alloc, members, "scope")?,
        s: field_at(alloc, members, "s")?,
        args: field_at(alloc, members, "args")?,
    })
}

fn field_at(alloc: Global, members: &Members, name: &str) -> Result<Option<FieldValue>, AllocError>
    ensures { IfOk result (λ field. field ≡ field_at name.now (members_view members.now.entries)) }
{
    match members.get(name) {
        Some(value) => Ok(Some(field_value(alloc, value)?)),
        None => Ok(None),
    }
}

fn field_value(alloc: Global, value: &Value) -> Result<FieldValue, AllocError>
    ensures { IfOk result (λ field. field ≡ field_value (view value.now)) }
{
    match value {
        Value::Object(members) => Ok(FieldValue::Pairs(args_of_members(alloc, members)?)),
        Value::Number(number) => Ok(number_field(number)),
        _ => Ok(FieldValue::Plain(arg_value(alloc, value)?)),
    }
}

fn number_field(value: &Number) -> FieldValue
    ensures { result ≡ field_value (number (number_view value.now)) }
{
    match value.as_f64() {
        Some(float) if value.is_f64() => FieldValue::Float(float),
        _ => FieldValue::Plain(number_value(value)),
    }
}

fn number_value(value: &Number) -> ArgValue
    ensures { result ≡ arg_value (number (number_view value.now)) }
{
    match value.as_i64() {
        Some(whole) => ArgValue::Whole(whole),
        None => ArgValue::Other,
    }
}

fn args_of_members(alloc: Global, members: &Members) -> Result<Args, AllocError>
    ensures { IfOk result (λ args. args ≡ pairs_of (members_view members.now.entries)) }
{
    let mut pairs = Vec::with_capacity(alloc, members.len())?;
    for (name, value) in members.iter() {
        pairs.push((Text::of(alloc, name.as_str())?, arg_value(alloc, value)?))?;
    }
    Args::of_pairs(pairs)
}

fn arg_value(alloc: Global, value: &Value) -> Result<ArgValue, AllocError>
    ensures { IfOk result (λ v. v ≡ arg_value (view value.now)) }
{
    match value {
        Value::Null => Ok(ArgValue::Nil),
        Value::Bool(flag) => Ok(ArgValue::Flag(*flag)),
        Value::Number(number) => Ok(number_value(number)),
        Value::String(text) => Ok(ArgValue::Words(Text::of(alloc, text.as_str())?)),
        Value::Array(_) | Value::Object(_) => Ok(ArgValue::Other),
    }
}
