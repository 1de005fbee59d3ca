//! Runs and their tables: the table of what was collected together, and what files come to each of which is a run of its own, read
//! and collected in several jobs at once.
#![tactic(auto)]

mod apart;
mod cuts;
mod file_run;
mod files;
mod folders;
mod gathered;
mod gathering;
mod jobs;
mod names;
mod runs;
mod said;
mod source;
mod stop;

pub use apart::gather_apart;
pub use file_run::{FileRun, collect_file};
pub use files::{read_input, unread};
pub use folders::{Listed, files_of};
pub use gathered::Gathered;
pub use gathering::Gathering;
pub use jobs::{Jobs, Stopped, in_jobs};
pub use names::{Named, is_standard, names_of, names_of_words};
pub use runs::table_of_run;
pub use said::Said;
pub use source::{FolderFault, Name, Source, SourceFault, jobs_for, sizes_of};
pub use span_collect::refusals::Warning;
pub use span_collect::{Collected, Input, Settings};
pub use span_event::Text;
pub use span_faults::Reason;
pub use span_names::HashKeys;
pub use span_table::{Schema, SumFault, Table};
pub use stop::{Halt, Stop};
