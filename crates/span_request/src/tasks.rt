//! What a command line asks for.

use crate::views::{ComparisonForm, PageView, RepeatsForm, TableForm, TableOptions, View};
use span_collect::Settings;
use span_report::stacks::SpanColumn;
use span_runs::{Name, Named};

/// What a command line asks for.
#[derive(Drop)]
pub enum Request {
    /// Do this with what is named.
    Run { task: Task, files: Named },
    /// Print this help, or the version.
    Show(String),
    /// The words are refused, by this text.
    Refuse(String),
}

/// What is done with what is named.
#[derive(Drop)]
pub enum Task {
    /// Collect all as one run, and print this of it.
    Collect {
        settings: Settings,
        view: View,
    },
    /// Collect each as a run of its own, in so many jobs at once, and print a page of them.
    Pages {
        settings: Settings,
        jobs: Option<u32>,
        view: PageView,
    },
    /// Collect each as a run of its own, in so many jobs at once, and print their folded stacks, added. Frames are labels by these
    /// columns.
    Stacks {
        settings: Settings,
        jobs: Option<u32>,
        labels: Vec<SpanColumn>,
    },
    /// Gather tables, and print this of them.
    Tabulate(Tabulation),
}

/// Tables, and the text that is made of them.
#[derive(Drop)]
pub struct Tabulation {
    pub items: Items,
    /// How many jobs gather them at once; if nothing is said, one for each processor that the system grants.
    pub jobs: Option<u32>,
    pub options: TableOptions,
    pub text: TableText,
}

/// What tables are gathered of.
#[derive(Clone, Copy)]
pub enum Items {
    /// All that is named is one run.
    Together(Settings),
    /// Each is a run of its own.
    Apart(Settings),
    /// Each is a table that was printed.
    Printed,
}

/// The text that is made of tables.
#[derive(Drop)]
pub enum TableText {
    /// One table.
    Table(TableForm),
    Changes(Changes),
    Repetitions(Repetitions),
}

/// What changed since the base's files.
#[derive(Drop)]
pub struct Changes {
    pub form: ComparisonForm,
    pub base: Vec<Name>,
}

/// How the numbers of repeated runs are spread, of the base's files and of the others.
#[derive(Drop)]
pub struct Repetitions {
    pub form: RepeatsForm,
    pub base: Vec<Name>,
}
