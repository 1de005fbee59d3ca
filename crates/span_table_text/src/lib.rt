//! The texts of a table: a ranking for people, and JSON Lines for machines.
#![tactic(auto)]

mod asked_numbers;
mod json_lines;
pub mod laws;
pub mod lines;
pub mod members;
mod rankings;
pub mod rows;
mod shown;

pub use asked_numbers::AskedNumbers;
pub use json_lines::{Head, JsonFault, json_table, with_json_head, with_json_row};
pub use members::column_names;
pub use rankings::ranking;
pub use shown::Shown;
pub use span_event::{ArgValue, Text, Unit};
pub use span_table::{
    Audience, Column, EntryCounts, Key, Number, Of, Row, Schema, Sums, Table, TableCounts,
};
