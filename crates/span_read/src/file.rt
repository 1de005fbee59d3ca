//! The items of a file.
ghost use Rattle.std.specs.Prelude.{◌≡◌, ◌≢◌, ◌<◌, ◌↔◌, length, IfOk, IfErr, Ok, Err, All};
ghost use Rattle.span_read.specs.{IsGoodItem, Microseconds, Document.{doc, format_of}, Time.IsItemInRange, declared.error.ReadError.TheVariants.{TooLarge, Memory}};

use crate::blocks::ItemBlocks;
use crate::candidates::{TextReader, read_first};
use crate::error::ReadError;
use crate::format::Format;
use crate::in_one::InOne;
use span_event::{Items, Unit};
use std::alloc::Global;
use std::str;

/// The items of a trace file in whole microseconds: `read_items_in` with `Format::of(Unit::Microseconds)`.
pub fn read_items(alloc: Global, bytes: &[u8]) -> Result<Items, ReadError>
    ensures items { IfOk result (λ items. doc (format_of Microseconds) bytes.now ≡ Ok items) }
    ensures refused { IfErr result (λ error. error ≢ Memory
        → doc (format_of Microseconds) bytes.now ≡ Err error) }
    ensures good { IfOk result (All IsGoodItem) }
    ensures in_range { IfOk result (All (IsItemInRange Microseconds)) }
    ensures too_large { (result ≡ Err TooLarge) ↔ (67108864 < length bytes.now) }
{
    read_items_in(alloc, Format::of(Unit::Microseconds), bytes)
}

/// The items of a trace file, in the order in which its elements stand, with times in the unit of the format.
///
/// A file is refused for the first of these that applies: 3 `TooLarge`, 1 `NotJson`, 2 `NotTrace`, 4 `TooMany`.
/// 31 `Memory` can come at any step after the first.
///
/// Under microseconds a time is a whole number from -(2^53 - 1) to 2^53 - 1, and a length one from 0 on. Under nanoseconds both are
/// any numbers of microseconds: each is taken as the whole number of nanoseconds that is nearest to it, or to the float that JSON
/// readers read it as where it has a point or an exponent, and may have a size of at most 2^62 - 1. An element whose time or length
/// is another is an item with the fault 14 `NotWhole`.
pub fn read_items_in(alloc: Global, format: Format, bytes: &[u8]) -> Result<Items, ReadError>
    ensures items { IfOk result (λ items. doc format bytes.now ≡ Ok items) }
    ensures refused { IfErr result (λ error. error ≢ Memory → doc format bytes.now ≡ Err error) }
    ensures good { IfOk result (All IsGoodItem) }
    ensures in_range { IfOk result (All (IsItemInRange format.unit)) }
    ensures too_large { (result ≡ Err TooLarge) ↔ (format.most_bytes < length bytes.now) }
{
    let one = InOne { block: usize::MAX };
    let items = read_bytes(&one, alloc, format, bytes)?;
    match items.into_list() {
        Ok(list) => Ok(Items::of_list(list)),
        Err(_) => Err(ReadError::Memory),
    }
}

/// The same, by a way to read texts.
pub(crate) fn read_bytes<T: TextReader>(
    reader: &T,
    alloc: Global,
    format: Format,
    bytes: &[u8],
) -> Result<ItemBlocks, ReadError>
    requires { T.is_ready }
    ensures items { IfOk result (λ items. doc format bytes.now ≡ Ok items) }
    ensures refused { IfErr result (λ error. error ≢ Memory → doc format bytes.now ≡ Err error) }
    ensures good { IfOk result (All IsGoodItem) }
    ensures in_range { IfOk result (All (IsItemInRange format.unit)) }
    ensures too_large { (result ≡ Err TooLarge) ↔ (format.most_bytes < length bytes.now) }
{
    if bytes.len() > format.most_bytes as usize {
        return Err(ReadError::TooLarge);
    }
    match str::from_utf8(bytes) {
        Ok(text) => read_first(reader, alloc, format, text),
        Err(_) => Err(ReadError::NotJson),
    }
}
