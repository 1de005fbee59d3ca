//! How two sides are compared.
ghost use Rattle.std.specs.Prelude.{◌≡◌, ◌++◌, string_bytes, OnOk};
ghost use Rattle.span_comparisons.specs.First.{first_of, more_line};

use span_event::Unit;
use span_table::Number;
use span_table_text::Shown;
use std::alloc::AllocError;

/// How two sides are compared: in a unit, by a number, of the keys that are shown.
#[derive(Clone, Copy)]
pub struct Comparing<'a> {
    pub unit: Unit,
    pub by: Number,
    pub shown: &'a Shown,
    /// The most keys that a text for people has lines for; all, where no number is named.
    pub most: Option<u32>,
}

/// The first of them, so many at most.
pub(crate) fn first_of<T>(all: &[T], most: Option<u32>) -> &[T]
    ensures { result.now ≡ first_of most all.now }
{
    match most {
        Some(most) => all.get(..most as usize).unwrap_or(all),
        None => all,
    }
}

/// Appends how many are left out, if any are.
#[tactic(auto, unfolding(crate::specs::First::more_line))]
pub(crate) fn put_more(out: &mut String, count: usize) -> Result<(), AllocError>
    ensures { OnOk result (string_bytes out.new ≡ string_bytes out.old ++ more_line count) }
{
    if count == 0 {
        return Ok(());
    }
    writeln!(out, "more {count}")
}
