//! The options of the command line, and what words give each of them.
#![tactic(auto)]

mod command;
mod help;
pub mod laws;
mod options;
mod parsing;

pub use command::DEFAULT_LIMIT;
pub use options::Options;
pub use parsing::{Parsed, options_of, refusal};
pub use span_event::Text;
