//! Requests: what the words of a command line ask for.
#![tactic(auto)]

mod columns;
mod conditions;
pub mod laws;
mod lists;
mod numbers;
mod request;
mod rules;
mod summed;
mod tasks;
mod texts;
mod views;

pub use numbers::numbers_go_with;
pub use request::{default_settings, request_of};
pub use span_collect::Settings;
pub use span_event::Text;
pub use span_narrowing::{Condition, Narrowing};
pub use span_table::{Number, Of};
pub use span_table_text::AskedNumbers;
pub use tasks::{Changes, Items, Repetitions, Request, TableText, Tabulation, Task};
pub use views::{ComparisonForm, PageView, RepeatsForm, TableForm, TableOptions, View};
