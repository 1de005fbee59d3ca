//! What one worker does: it reads its file, and tells the items one by one.
ghost use Rattle.std.specs.Prelude.{◌<◌, ◌^◌, length, All, Ok};
ghost use Rattle.span_collect.specs.{doc, IsGoodItem, Work.{IsNewSeat, IsWorked}};

use crate::files::{FileEnd, Input};
use crate::gate::Gate;
use crate::parts::parts_for;
use crate::reading_places::ReadingPlaces;
use span_event::Item;
use span_journal::Cause;
use span_read::{ItemBlocks, ReadError, Reading, read_items_in_parts};
use span_share::{Seat, Share};
use std::alloc::Global;
use std::sync::Wait;
use std::thread::Threads;

// Reads the file outside the turn, and tells its items.
pub(crate) fn work<G: Gate, R: Threads + Wait + Sync>(
    rt: &R,
    alloc: Global,
    share: &Share,
    gate: &G,
    places: &ReadingPlaces,
    worker: u32,
    reading: Reading,
    file: &Input,
    seat: &mut Seat,
) -> FileEnd
    requires { IsNewSeat share.now seat.old }
    ensures { IsWorked share.now (doc reading.format file.now.bytes.items) result seat.new }
{
    let caller = seat.number();
    gate.read(worker);
    let place = places.take(rt, worker);
    let own = Reading {
        parts: parts_for(reading.parts, file),
        ..reading
    };
    let read = read_items_in_parts(rt, alloc, own, &file.bytes);
    drop(place);
    match read {
        Ok(items) => tell_all(rt, alloc, share, gate, worker, items, seat),
        Err(ReadError::Memory) => FileEnd::Stopped {
            caller,
            done: 0,
            cause: Cause::Memory,
        },
        Err(error) => FileEnd::Refused {
            caller,
            code: error.code(),
        },
    }
}

// A span that closes keeps a copy of its arguments. Their count of copies was last written when the file was read, so it is mostly not
// in a cache any more: the worker waits for it here, while others may have the turn.
fn fetch_args(alloc: Global, item: &Item) {
    if let Item::Good(event) = item {
        let _ = event.args.try_clone(alloc);
    }
}

// Tells the items in order, until one is not taken.
fn tell_all<G: Gate, R: Wait>(
    rt: &R,
    alloc: Global,
    share: &Share,
    gate: &G,
    worker: u32,
    items: ItemBlocks,
    seat: &mut Seat,
) -> FileEnd
    requires new { IsNewSeat share.now seat.old }
    requires good { All IsGoodItem items }
    requires few { length items < 2 ^ 32 }
    ensures { IsWorked share.now (Ok items) result seat.new }
{
    let caller = seat.number();
    let mut done: u32 = 0;
    let mut remaining = items.into_remaining();
    'items: while let Some(item) = remaining.next() {
        gate.pass(worker, done);
        fetch_args(alloc, &item);
        if let Err(back) = share.tell(rt, seat, item) {
            return FileEnd::Stopped {
                caller,
                done,
                cause: back.cause,
            };
        }
        done += 1;
    }
    FileEnd::Read {
        caller,
        items: done,
    }
}
