//! The numbers of names, and how the maps that files fill are hashed.
#![tactic(auto)]

mod hash_keys;
mod names;

pub use hash_keys::HashKeys;
pub use names::Names;
pub use span_event::Text;
