//! What was asked while the files were told.
ghost use Rattle.std.specs.Prelude.{◌≡◌, ◌^◌, ◌<◌, []};
ghost use Rattle.span_collect.specs.{Format, Work.{IsNewSeat, HasMet}};

use crate::gate::Gate;
use span_journal::{Cause, Query};
use span_share::{Seat, Share};
use std::alloc::Global;
use std::sync::Wait;

/// How far the queries came: they are asked in order until one is refused.
#[derive(Clone, Copy, Debug, PartialEq, Eq)]
pub struct Asked {
    /// How many stand in the journal.
    pub done: u32,
    /// Why the next one was not taken, 31 Memory or 32 Full; None where all were.
    pub cause: Option<Cause>,
}

// Asks the queries in order, under number 0, beside so many workers.
pub(crate) fn ask_all<G: Gate, R: Wait>(
    rt: &R,
    alloc: Global,
    share: &Share,
    gate: &G,
    workers: u32,
    asks: &[Query],
    seat: &mut Seat,
) -> Asked
    requires new { IsNewSeat share.now seat.old }
    requires first { seat.old.number ≡ 0 }
    requires small { share.now.terms.limit < 2 ^ 32 }
    ensures { (format : Format) → HasMet format share.now [] asks.now [] result seat.new }
{
    let mut done: u32 = 0;
    for query in asks {
        gate.pass(workers, done);
        let Ok(query) = query.try_clone(alloc) else {
            return Asked {
                done,
                cause: Some(Cause::Memory),
            };
        };
        if let Err(back) = share.ask(rt, seat, query) {
            return Asked {
                done,
                cause: Some(back.cause),
            };
        }
        done += 1;
    }
    Asked { done, cause: None }
}
