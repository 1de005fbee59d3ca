//! Requests as they are done: what comes of each, over whatever files and outputs there are.
#![tactic(auto)]

mod added;
mod files;
pub mod laws;
mod outcome;
mod page_sum;
mod pages;
mod place;
mod printed;
mod reading;
mod requests;
mod session;
mod side;
mod sides;
mod stacks;
mod summed;
mod tabulation;
mod texts;
mod together;
mod walk;
mod warnings;

pub use files::{Files, Unwatched, Watcher};
pub use outcome::{Lines, LinesTo, Outcome};
pub use place::Place;
pub use session::Session;
pub use span_collect::{Format, Settings};
pub use span_event::{Text, Unit};
pub use span_narrowing::{Condition, Narrowing};
pub use span_report::{Sink, SinkFault, Writer};
pub use span_request::{
    Changes, ComparisonForm, Items, PageView, RepeatsForm, Repetitions, Request, TableForm,
    TableOptions, TableText, Tabulation, Task, View, default_settings,
};
pub use span_runs::{FolderFault, Name, Named, Reason, Source, SourceFault};
pub use span_table::{Audience, Column, Number, Of};
pub use span_table_text::{AskedNumbers, Shown};
