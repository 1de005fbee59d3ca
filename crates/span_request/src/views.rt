//! What is printed of what was collected, or added.

use span_narrowing::Narrowing;
use span_report::stacks::SpanColumn;
use span_table::{Column, Of};
use span_table_text::{AskedNumbers, Shown};

/// What is printed of one run, beside its table.
#[derive(Drop)]
pub enum View {
    /// The report; files of which events were refused may be warned of behind it.
    Report { warns: bool },
    /// Which items of each file were refused.
    Refusals,
    /// The folded stacks of each thread, whose frames are labels by these columns.
    Folded(Vec<SpanColumn>),
    /// A page for a browser.
    Page(PageView),
}

/// What a page shows of spans: a table of the run, as rows for other programs, and frames that are labels by these columns.
#[derive(Drop)]
pub struct PageView {
    pub options: TableOptions,
    pub labels: Vec<SpanColumn>,
}

/// Which table is printed: what is summed, by which columns, which numbers are shown, how it is narrowed, and which rows are shown.
/// Tables that are added say themselves what they sum, and no columns are all of theirs.
#[derive(Drop)]
pub struct TableOptions {
    pub of: Of,
    /// Those that are printed; those of conditions are summed beside them.
    pub columns: Vec<Column>,
    pub numbers: AskedNumbers,
    pub narrowing: Narrowing,
    pub shown: Shown,
}

/// How a table is printed.
#[derive(Clone, Copy)]
pub enum TableForm {
    /// The first rows, at most so many.
    Ranking { most: u32 },
    /// The rows for other programs.
    Json,
}

/// How a comparison is printed.
#[derive(Clone, Copy)]
pub enum ComparisonForm {
    /// For people, with the greatest change first; at most so many, where a number is named.
    Text { most: Option<u32> },
    /// For other programs.
    Json,
}

/// How repeated runs are printed.
#[derive(Clone, Copy)]
pub enum RepeatsForm {
    /// For people: the keys whose sides are apart; at most so many, where a number is named.
    Text { most: Option<u32> },
    /// For other programs: the values of each key.
    Json,
}
