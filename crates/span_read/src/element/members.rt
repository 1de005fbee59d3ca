//! Each field of an event, checked and taken at once.
ghost use Rattle.std.specs.{Prelude.{◌≡◌, is_some, pos, [], None, IfOk, if◌then◌else◌}, Result.result_err};
ghost use Rattle.span_read.specs.{Scope, BadReach, BadSeries, all_whole, Element.{where_read, time_fault, duration_fault, time_or_zero, duration_or_zero, whole_fault, text_fault, unless}, Fields.{whole_or_zero, text_or_empty, reach_of, args_of}, Phase.{reads_time, reads_duration, reads_scope, reads_reach, wants_whole_args}};

use crate::element::time::time_in;
use crate::fields::FieldValue;
use crate::phase::reads_scope;
use span_event::{ArgValue, Args, Field, ItemFault, Phase, Reach, Text, Unit};
use std::alloc::Global;

pub(crate) fn take_time(unit: Unit, phase: Phase, ts: &Option<FieldValue>) -> Result<i64, ItemFault>
    ensures fault { result_err result ≡ where_read (reads_time phase) (time_fault unit ts.now) }
    ensures value { IfOk result (λ taken.
        taken ≡ (if reads_time phase then time_or_zero unit ts.now else pos 0)) }
{
    if phase == Phase::Meta {
        return Ok(0);
    }
    let Some(time) = ts else {
        return Err(ItemFault::NoTime);
    };
    time_in(unit, time).ok_or(ItemFault::NotWhole)
}

pub(crate) fn take_duration(
    unit: Unit,
    phase: Phase,
    dur: &Option<FieldValue>,
) -> Result<u64, ItemFault>
    ensures fault { result_err result
        ≡ where_read (reads_duration phase) (duration_fault unit dur.now) }
    ensures value { IfOk result (λ taken.
        taken ≡ (if reads_duration phase then duration_or_zero unit dur.now else 0)) }
{
    if phase != Phase::Complete {
        return Ok(0);
    }
    let Some(duration) = dur else {
        return Err(ItemFault::NoDuration);
    };
    match time_in(unit, duration) {
        Some(duration) if 0 <= duration => Ok(duration as u64),
        _ => Err(ItemFault::NotWhole),
    }
}

pub(crate) fn take_whole(field: Field, value: &Option<FieldValue>) -> Result<i64, ItemFault>
    ensures fault { result_err result ≡ whole_fault field value.now }
    ensures value { IfOk result (λ taken. taken ≡ (whole_or_zero value.now)) }
{
    match value {
        Some(value) => value.whole().ok_or(ItemFault::BadField(field)),
        None => Ok(0),
    }
}

pub(crate) fn take_text(
    alloc: Global,
    field: Field,
    value: Option<FieldValue>,
) -> Result<Text, ItemFault>
    ensures fault { result_err result ≡ text_fault field value }
    ensures value { IfOk result (λ taken. taken ≡ (text_or_empty value)) }
{
    match value {
        Some(value) => value.into_words().ok_or(ItemFault::BadField(field)),
        None => Ok(Text::empty(alloc)),
    }
}

pub(crate) fn take_scope(
    alloc: Global,
    phase: Phase,
    scope: Option<FieldValue>,
) -> Result<Text, ItemFault>
    ensures fault { result_err result ≡ where_read (reads_scope phase) (text_fault Scope scope) }
    ensures value { IfOk result (λ taken.
        taken ≡ (if reads_scope phase then text_or_empty scope else [])) }
{
    if reads_scope(phase) {
        take_text(alloc, Field::Scope, scope)
    } else {
        Ok(Text::empty(alloc))
    }
}

/// An instant without `s` reaches its thread.
pub(crate) fn take_reach(phase: Phase, s: Option<FieldValue>) -> Result<Option<Reach>, ItemFault>
    ensures fault { result_err result
        ≡ where_read (reads_reach phase) (unless (is_some (reach_of s)) BadReach) }
    ensures value { IfOk result (λ taken.
        taken ≡ (if reads_reach phase then reach_of s else None)) }
{
    if phase != Phase::Instant {
        return Ok(None);
    }
    let Some(value) = s else {
        return Ok(Some(Reach::Thread));
    };
    let Some(word) = value.into_words() else {
        return Err(ItemFault::BadReach);
    };
    match word.as_str() {
        "g" => Ok(Some(Reach::Global)),
        "p" => Ok(Some(Reach::Process)),
        "t" => Ok(Some(Reach::Thread)),
        _ => Err(ItemFault::BadReach),
    }
}

/// Arguments that are not an object are left out.
pub(crate) fn take_args(
    alloc: Global,
    phase: Phase,
    args: Option<FieldValue>,
) -> Result<Args, ItemFault>
    ensures fault { result_err result
        ≡ where_read (wants_whole_args phase) (unless (all_whole (args_of args)) BadSeries) }
    ensures value { IfOk result (λ taken. taken ≡ (args_of args)) }
{
    let args = match args {
        Some(FieldValue::Pairs(args)) => args,
        Some(FieldValue::Plain(_value)) => Args::empty(alloc),
        Some(FieldValue::Float(_)) | None => Args::empty(alloc),
    };
    if phase == Phase::Counter && !all_whole(&args) {
        Err(ItemFault::BadSeries)
    } else {
        Ok(args)
    }
}

// Whether each value is a whole number.
fn all_whole(args: &Args) -> bool
    ensures { result ≡ all_whole args.now }
{
    for (_, value) in args.pairs() {
        if !matches!(value, ArgValue::Whole(_)) {
            return false;
        }
    }
    true
}
