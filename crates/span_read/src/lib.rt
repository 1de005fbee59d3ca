//! Reads the bytes of a trace file into typed items. With the types of events and items, which are a crate of their own.
#![tactic(auto)]

mod arg_map;
mod blocks;
mod candidates;
mod cuts;
mod divided;
mod document;
mod element;
mod elements;
mod error;
mod fields;
mod file;
mod format;
mod in_one;
pub mod laws;
mod parts;
mod phase;
mod reading;
mod recent;
mod token_fields;
mod tokens;
mod value_fields;

pub use blocks::{ItemBlocks, RemainingItems};
pub use element::item_of;
pub use error::ReadError;
pub use file::{read_items, read_items_in};
pub use format::Format;
pub use reading::{Reading, read_items_in_parts};
pub use span_event::{
    ArgValue, Args, BoxedId, Event, Fault, Field, IdKey, Item, ItemFault, Items, Phase, Reach,
    Text, Unit, merge_args,
};
