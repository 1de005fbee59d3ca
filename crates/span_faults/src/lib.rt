//! What is said of files and runs that failed, and hints, which say what may help.
#![tactic(auto)]

mod hints;
mod lines;
mod remedies;
mod warnings;

pub use hints::{hint_line, hints_of, many_files, no_names, one_base};
pub use lines::{fault_text, run_line};
pub use remedies::{Hint, Reason};
pub use span_collect::refusals::Warning;
pub use span_collect::{Collected, Input, RunEnd};
pub use span_event::{Text, Unit};
pub use warnings::warning_lines;
