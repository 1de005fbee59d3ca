//! The events of a trace that have to do with spans, as a track takes them.
ghost use Rattle.std.specs.Prelude.{◌≡◌, ◌≤◌, All};
ghost use Rattle.span_event.specs.Event.{IsTime, greatest_time};
ghost use Rattle.span_event.specs.declared.event.Phase.TheVariants.{Complete};
ghost use Rattle.span_event.specs.Item.{IsGoodItem};

use span_event::{Event, Item, Items, Phase};
use span_names::Names;
use std::alloc::{AllocError, Global};

/// An event with the number of its name.
#[derive(Drop)]
pub(crate) struct Step {
    pub number: u32,
    pub event: Event,
    ghost in_time: { IsTime event.ts },
    ghost lasts: { event.phase ≡ Complete → event.dur ≤ greatest_time },
}

fn is_of_span(event: &Event) -> bool {
    matches!(
        event.phase,
        Phase::SpanBegin | Phase::SpanEnd | Phase::Complete
    )
}

// The number of the event's name.
fn number_of(names: &mut Names, event: &Event) -> Result<u32, AllocError> {
    if names.count() == u32::MAX {
        return Err(AllocError);
    }
    names.number_of(&event.name)
}

// Adds the item, if it is an event that has to do with spans.
fn add(steps: &mut Vec<Step>, names: &mut Names, item: Item) -> Result<(), AllocError>
    requires { IsGoodItem item }
{
    if let Item::Good(event) = item {
        if is_of_span(&event) {
            let number = number_of(names, &event)?;
            steps.push(Step { number, event })?;
        }
    }
    Ok(())
}

/// The begins, ends and complete events in order, and how many names they have.
pub(crate) fn steps_of(alloc: Global, items: Items) -> Result<(Vec<Step>, u32), AllocError>
    requires { All IsGoodItem items }
{
    let mut steps = Vec::new(alloc);
    let mut names = Names::new(alloc);
    for item in items.into_list() {
        add(&mut steps, &mut names, item)?;
    }
    Ok((steps, names.count()))
}
