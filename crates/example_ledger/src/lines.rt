//! What the words of a line say, and what is wrong with one.
ghost use Rattle.std.specs.Prelude.{All, IfOk};
ghost use Rattle.span_event.specs.Item.{IsGoodItem};

use span_event::{Event, Item, Items, Unit};
use span_read::{Format, ReadError, read_items_in};
use std::alloc::{AllocError, Global};
use std::io;
use thiserror::Error;

/// Why the program ends before its input does.
#[derive(Debug, Drop, Error)]
pub(crate) enum Fault {
    #[error("{0}")]
    Line(&'static str),
    #[error("out of memory")]
    Memory,
    #[error("{0}")]
    Stream(io::Error),
}

impl From<AllocError> for Fault {
    fn from(_: AllocError) -> Fault {
        Fault::Memory
    }
}

impl From<io::Error> for Fault {
    fn from(error: io::Error) -> Fault {
        match error.kind() {
            io::ErrorKind::OutOfMemory => Fault::Memory,
            _ => Fault::Stream(error),
        }
    }
}

/// The first word, and what is behind the blank that ends it.
pub(crate) fn word_of(text: &str) -> (&str, &str) {
    text.split_once(' ').unwrap_or((text, ""))
}

/// The whole number that the text begins with, and what is behind it.
pub(crate) fn whole_of(text: &str) -> Result<(i64, &str), Fault> {
    let (word, rest) = word_of(text);
    match word.parse::<i64>() {
        Ok(number) => Ok((number, rest)),
        Err(_) => Err(Fault::Line("a whole number is meant")),
    }
}

/// The number of a caller or of entries that the text begins with, and what is behind it.
pub(crate) fn count_of(text: &str) -> Result<(u32, &str), Fault> {
    let (number, rest) = whole_of(text)?;
    match u32::try_from(number) {
        Ok(count) => Ok((count, rest)),
        Err(_) => Err(Fault::Line("a number from 0 to 4294967295 is meant")),
    }
}

/// The elements of a trace that the text is, with commas between them.
pub(crate) fn items_of(alloc: Global, unit: Unit, text: &str) -> Result<Items, Fault>
    ensures { IfOk result (All IsGoodItem) }
{
    let trace = format!(in alloc; "[{text}]")?;
    match read_items_in(alloc, Format::of(unit), trace.as_bytes()) {
        Ok(items) => Ok(items),
        Err(ReadError::Memory) => Err(Fault::Memory),
        Err(_) => Err(Fault::Line("an element of a trace is meant")),
    }
}

/// The first event among them.
pub(crate) fn event_of(alloc: Global, unit: Unit, text: &str) -> Result<Event, Fault> {
    for item in items_of(alloc, unit, text)?.into_list() {
        if let Item::Good(event) = item {
            return Ok(event);
        }
    }
    Err(Fault::Line("an event is meant"))
}
