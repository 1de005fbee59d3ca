//! The unit of time of a run.

/// What a whole number of time stands for in a run: every time and length that is read, kept and reported is in this unit.
#[derive(Clone, Copy, Debug, PartialEq, Eq)]
pub enum Unit {
    /// The default: times are whole microseconds, as they stand in the file.
    Microseconds,
    /// Times are whole nanoseconds, from the file's microseconds with their fractions.
    Nanoseconds,
}
