//! The events of a trace as they are read: texts, arguments, ids, phases; and the items of a file, which are good events,
//! numbered faults, and events of phases that are not used.
#![tactic(auto)]

mod args;
mod boxed_id;
mod event;
mod fault;
mod item;
mod items;
mod short;
mod text;
mod thread;
mod time;
mod unit;

pub use args::{ArgValue, Args, merge_args};
pub use boxed_id::BoxedId;
pub use event::{Event, IdKey, Phase, Reach};
pub use fault::Fault;
pub use item::{Field, Item, ItemFault};
pub use items::Items;
pub use text::Text;
pub use thread::Thread;
pub use time::distance;
pub use unit::Unit;
