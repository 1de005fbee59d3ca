//! Why items of a run's files were refused: which numbers refused how many of each file, and which first, as a text; and which files
//! have refused events, to warn of them.

mod tallies;
mod tally;
mod text;
mod warnings;

pub use text::{refusals, refusals_text};
pub use warnings::{Warning, warnings_of};
