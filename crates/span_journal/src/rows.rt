//! The rows that a ledger lists: counts, processes, threads and names.
ghost use Rattle.std.specs.Prelude.{◌≡◌, []};
ghost use Rattle.span_journal.specs.Rows.{CanGrow, count_row, counted};

use crate::entry::Answer;
use crate::kind::Kind;
use span_event::Text;

/// How many entries of each kind a journal holds.
#[derive(Clone, Copy, Debug, PartialEq, Eq)]
pub struct CountRow {
    /// Events that are taken into account.
    pub accepted: u32,
    /// Elements that were refused, with whatever number.
    pub refused: u32,
    /// Elements that have no effect.
    pub skipped: u32,
    /// Queries.
    pub queries: u32,
    /// Seals that closed spans.
    pub seals: u32,
}

impl CountRow {
    /// The counts of a journal without entries.
    pub const fn of_no_entries() -> CountRow
        ensures { result ≡ count_row [] }
    {
        CountRow {
            accepted: 0,
            refused: 0,
            skipped: 0,
            queries: 0,
            seals: 0,
        }
    }

    /// Counts one more entry, which has this answer.
    pub fn count(&mut self, answer: &Answer)
        requires { CanGrow self.old }
        ensures { self.new ≡ counted self.old answer.now }
    {
        match answer.kind() {
            Kind::Accepted => self.accepted += 1,
            Kind::Refused => self.refused += 1,
            Kind::Skipped => self.skipped += 1,
            Kind::Replied => self.queries += 1,
            Kind::Sealed => self.seals += 1,
        }
    }
}

/// A process that has an accepted event. Its name is None where no event gave one.
#[derive(Debug, Drop, PartialEq, Eq)]
pub struct ProcessRow {
    pub pid: i64,
    pub name: Option<Text>,
}

/// A thread that has an accepted begin, end, complete event or instant, or that a metadata event names or sorts. `busy` is in
/// ticks.
#[derive(Debug, Drop, PartialEq, Eq)]
pub struct ThreadRow {
    pub pid: i64,
    pub tid: i64,
    pub name: Option<Text>,
    /// How many spans are open.
    pub unclosed: u32,
    /// The ticks that at least one closed span covers.
    pub busy: u64,
}

/// The closed spans of one name on one thread: how many, and their length and self time together, in ticks.
#[derive(Debug, Drop, PartialEq, Eq)]
pub struct SpanRow {
    pub pid: i64,
    pub tid: i64,
    pub name: Text,
    pub count: u32,
    pub total: u128,
    pub self_time: u64,
}
