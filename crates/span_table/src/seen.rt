//! Spans as the columns of a table see them.
ghost use Rattle.std.specs.Prelude.{◌≡◌};
ghost use Rattle.span_table.specs.Tables.{called};

use span_event::{Args, Text, Thread};
use span_ledger::TimedSpan;
use std::marker::Model;

/// What a span is called: its name and its arguments.
#[derive(Drop)]
pub(crate) struct CalledSpan<'a> {
    pub(crate) name: &'a Text,
    pub(crate) args: &'a Args,
}

impl<'a> Model for CalledSpan<'a> {
    ghost use Rattle.span_table.specs.Columns.{Called};

    ghost Value = { Called };

    ghost view = { λ c. record { name = c.name.now; args = c.args.now } };
}

impl<'a> CalledSpan<'a> {
    pub(crate) fn of(timed: &TimedSpan<'a>) -> CalledSpan<'a>
        ensures { result ≡ called timed.now.span }
    {
        let span = timed.span;
        CalledSpan {
            name: timed.name,
            args: &span.args,
        }
    }
}

/// A closed span of a thread: what it is called, and what its parent is, where a column asks for it.
#[derive(Drop)]
pub(crate) struct SeenSpan<'a> {
    pub(crate) thread: Thread,
    pub(crate) span: CalledSpan<'a>,
    pub(crate) parent: Option<CalledSpan<'a>>,
}
