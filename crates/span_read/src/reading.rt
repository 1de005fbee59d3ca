//! Files that are read in parts.
ghost use Rattle.std.specs.Prelude.{◌≡◌, ◌≢◌, ◌<◌, ◌↔◌, length, IfOk, IfErr, Ok, Err, All};
ghost use Rattle.span_read.specs.{IsGoodItem, Document.doc, Time.IsItemInRange, declared.error.ReadError.TheVariants.{TooLarge, Memory}};

use crate::blocks::{BLOCK, ItemBlocks};
use crate::error::ReadError;
use crate::file::read_bytes;
use crate::format::Format;
use crate::in_one::InOne;
use crate::parts::InParts;
use std::alloc::Global;
use std::thread::Threads;

/// How files are read: in which format, and in how many parts side by side.
#[derive(Clone, Copy, Debug, PartialEq, Eq)]
pub struct Reading {
    pub format: Format,
    /// What comes of a file doesn't depend on them.
    pub parts: u32,
}

/// The items of a trace file as `read_items_in` gives them, but in blocks, and in less time where several processors are granted.
///
/// The file is cut at commas between two objects, and its parts are read by so many threads, or by fewer where no more can be had. If it
/// can't be cut, or was cut within an element, it is read in one.
pub fn read_items_in_parts<R: Threads + Sync>(
    rt: &R,
    alloc: Global,
    reading: Reading,
    bytes: &[u8],
) -> Result<ItemBlocks, ReadError>
    ensures items { IfOk result (λ items. doc reading.format bytes.now ≡ Ok items) }
    ensures refused { IfErr result (λ error. error ≢ Memory
        → doc reading.format bytes.now ≡ Err error) }
    ensures good { IfOk result (All IsGoodItem) }
    ensures in_range { IfOk result (All (IsItemInRange reading.format.unit)) }
    ensures too_large { (result ≡ Err TooLarge) ↔ (reading.format.most_bytes < length bytes.now) }
{
    if reading.parts < 2 {
        return read_bytes(&InOne { block: BLOCK }, alloc, reading.format, bytes);
    }
    let reader = InParts {
        rt,
        parts: reading.parts,
    };
    read_bytes(&reader, alloc, reading.format, bytes)
}
