//! What a table sums.

/// What a table sums: the closed spans of threads, or asynchronous spans, of which it also counts those that are open and points.
#[derive(Clone, Copy, Debug, PartialEq, Eq)]
pub enum Of {
    Spans,
    Async,
}
