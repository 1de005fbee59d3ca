//! Tables: the closed spans of runs, or their asynchronous spans, summed by columns.
#![tactic(auto)]

mod audience;
mod collected;
mod column;
mod counts;
mod groups;
mod key;
pub mod laws;
mod merging;
mod number;
mod of;
mod ordered;
mod row_search;
mod run;
mod schema;
mod seen;
mod sums;
mod table;
mod table_sum;
mod wide;

pub use audience::Audience;
pub use column::{Column, copies_of, copy_of, words_of};
pub use counts::{TableCounts, counts_fit};
pub use groups::Groups;
pub use key::Key;
pub use merging::merged;
pub use number::{Number, are_same, has_number};
pub use of::Of;
pub use ordered::{OrderedTable, RowRef, sorted};
pub use row_search::{row_at, sums_at};
pub use schema::Schema;
pub use span_event::{ArgValue, Text};
pub use span_ledger::Ledger;
pub use span_names::HashKeys;
pub use span_report::EntryCounts;
pub use sums::{Sums, fits};
pub use table::{Row, Table};
pub use table_sum::{SumFault, TableSum};
