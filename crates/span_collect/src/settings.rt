//! What a collection is to do, beside its files and queries.

use span_read::Format;

/// How files are read, how much a collection may record, whether it closes what stays open, whether names are strict, and whether it has
/// the processors for itself.
#[derive(Clone, Copy, Debug, PartialEq, Eq)]
pub struct Settings {
    /// How files are read. What is reported has times in the same unit.
    pub format: Format,
    /// How many entries the journal may hold.
    pub limit: u32,
    /// Whether the open spans of each thread are closed once all is told, at the latest time that the thread has seen.
    pub seal: bool,
    /// Whether an end that names another span than the one that it would close is refused, with 27.
    pub strict: bool,
    /// Whether no other collection runs beside it. Then a large file is read by as many threads as the system grants processors; what is
    /// collected is the same.
    pub alone: bool,
}
