//! Parts: tables that were printed as JSON Lines. They are read back, byte for byte, and added.
#![tactic(auto)]

mod choice;
mod fault;
mod guess;
mod heads;
pub mod laws;
mod parts;
mod room;
mod rows;
mod sums;
mod tokens;

pub use choice::Asked;
pub use fault::PartFault;
pub use parts::Parts;
pub use span_event::Unit;
pub use span_names::HashKeys;
pub use span_table::{Column, Schema, Table};
