//! Whom a text is for.

/// Whom a text is for, which decides the numbers that it shows where none are named.
#[derive(Clone, Copy, Debug, PartialEq, Eq)]
pub enum Audience {
    People,
    /// Other programs.
    Programs,
}
