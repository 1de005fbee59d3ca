//! One ledger for many threads: a turn word, a slot that holds the ledger, and a seat for each caller.
//!
//! `Share::start` gives a share and its first seat, and `enrol` a seat for each further thread, which tells with it. Once the threads
//! are joined `meet` makes one seat of theirs, and `close` gives the ledger. The first test is a whole use.
#![tactic(auto)]

mod book;
mod seat;
mod share;
mod steps;
mod turn;

pub use book::{Book, Receipt};
pub use seat::Seat;
pub use share::{Share, ShareError};
pub use span_journal::{Answer, Back, BoxedReply, Cause, Entry, Op, Query, Reply};
pub use span_ledger::{
    ArgValue, Args, AsyncKey, BoxedId, Event, Field, FlowKey, HashKeys, IdKey, Item, ItemFault,
    Ledger, Phase, Reach, SeriesKey, Text,
};

#[cfg(test)]
mod tests;
