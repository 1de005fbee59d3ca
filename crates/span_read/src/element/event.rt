//! The event that fields give. Each field is checked and taken at once, in the order of the faults; texts are moved.
ghost use Rattle.std.specs.Prelude.{◌≡◌, None, IfOk, IfErr};
ghost use Rattle.span_read.specs.{Element.{fault_of, event_of}, Phase.needs_id, Refusal.IsForFault};

use crate::element::id::take_key;
use crate::element::members::{
    take_args, take_duration, take_reach, take_scope, take_text, take_time, take_whole,
};
use crate::error::refusal::Refusal;
use crate::fields::Fields;
use crate::phase::needs_id;
use span_event::{Event, Field, ItemFault, Phase, Unit};
use std::alloc::Global;

pub(crate) fn event_of(
    alloc: Global,
    unit: Unit,
    phase: Phase,
    fields: &mut Fields,
) -> Result<Event, Refusal>
    ensures right { IfOk result (λ event. fault_of unit phase fields.old ≡ None) }
    ensures event { IfOk result (λ event. event ≡ event_of unit phase fields.old) }
    ensures refused { IfErr result (IsForFault (fault_of unit phase fields.old)) }
{
    let ts = take_time(unit, phase, &fields.ts)?;
    let dur = take_duration(unit, phase, &fields.dur)?;
    let pid = take_whole(Field::Pid, &fields.pid)?;
    let tid = take_whole(Field::Tid, &fields.tid)?;
    let name = take_text(alloc, Field::Name, fields.name.take())?;
    let cat = take_text(alloc, Field::Cat, fields.cat.take())?;
    let key = take_key(alloc, phase, pid, &fields.id, &fields.id2)?;
    let scope = take_scope(alloc, phase, fields.scope.take())?;
    if needs_id(phase) && key.is_none() {
        return Err(Refusal::Fault(ItemFault::NoId));
    }
    let reach = take_reach(phase, fields.s.take())?;
    let args = take_args(alloc, phase, fields.args.take())?;
    Ok(Event {
        phase,
        reach,
        name,
        cat,
        ts,
        dur,
        pid,
        tid,
        key,
        scope,
        args,
    })
}
