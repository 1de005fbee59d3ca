//! What the ledger replies to a query.
ghost use Rattle.std.specs.Prelude.{◌≡◌, option_copied, IfOk};

use crate::rows::CountRow;
use span_event::Text;
use span_keyed_tracks::{AsyncTotals, FlowTotals, SeriesTotals};
use std::alloc::{AllocError, Global};
use std::fmt;
use std::marker::Model;

/// The reply to a query. Times and lengths are ticks.
#[derive(Debug, Drop, PartialEq, Eq)]
pub enum Reply {
    /// Of a thread: how many spans are open, the ticks that closed spans cover, and the time of the last begin, end or seal.
    Thread {
        unclosed: u32,
        busy: u64,
        last: Option<i64>,
    },
    /// Of the closed spans of a name: how many, and their lengths and self times together. Zeros where there is none.
    Name {
        count: u32,
        total: u128,
        self_time: u64,
    },
    /// Of an asynchronous key. Zeros where no event has it.
    Async(AsyncTotals),
    /// Of a flow key. Zeros where no event has it.
    Flow(FlowTotals),
    /// Of a series. None where it has no sample.
    Series(Option<SeriesTotals>),
    /// What metadata events set last, where they did; a thread has no labels.
    Names {
        name: Option<Text>,
        labels: Option<Text>,
        sort_index: Option<i64>,
    },
    /// How many entries of each kind stand before the query.
    Counts(CountRow),
}

impl Reply {
    /// A copy, which shares long texts. It fails where there are 2^63 copies of one.
    pub fn try_clone(&self, alloc: Global) -> Result<Reply, AllocError>
        ensures { IfOk result (λ reply. reply ≡ self.now) }
    {
        match self {
            Reply::Thread {
                unclosed,
                busy,
                last,
            } => Ok(Reply::Thread {
                unclosed: *unclosed,
                busy: *busy,
                last: *last,
            }),
            Reply::Name {
                count,
                total,
                self_time,
            } => Ok(Reply::Name {
                count: *count,
                total: *total,
                self_time: *self_time,
            }),
            Reply::Async(totals) => Ok(Reply::Async(*totals)),
            Reply::Flow(totals) => Ok(Reply::Flow(*totals)),
            Reply::Series(totals) => Ok(Reply::Series(*totals)),
            Reply::Names {
                name,
                labels,
                sort_index,
            } => {
                let name = copy_of(alloc, name.as_ref())?;
                let labels = copy_of(alloc, labels.as_ref())?;
                Ok(Reply::Names {
                    name,
                    labels,
                    sort_index: *sort_index,
                })
            }
            Reply::Counts(row) => Ok(Reply::Counts(*row)),
        }
    }
}

/// A reply behind a pointer: most answers are none, and are smaller without room for one.
#[derive(Drop)]
pub struct BoxedReply {
    reply: Box<Reply>,
}

impl Model for BoxedReply {
    ghost use Rattle.span_journal.specs.declared.reply.Reply.{Reply};

    ghost Value = { Reply };

    ghost view = { λ b. b.reply.value };
}

impl BoxedReply {
    pub fn new(alloc: Global, reply: Reply) -> Result<BoxedReply, AllocError>
        ensures { IfOk result (λ boxed. boxed ≡ reply) }
    {
        let reply = Box::new(alloc, reply)?;
        Ok(BoxedReply { reply })
    }

    pub fn as_reply(&self) -> &Reply
        ensures { result.now ≡ self.now }
    {
        &self.reply
    }

    /// A copy, which shares long texts. It fails where there are 2^63 copies of one, or no memory is left.
    pub fn try_clone(&self, alloc: Global) -> Result<BoxedReply, AllocError>
        ensures { IfOk result (λ copy. copy ≡ self.now) }
    {
        let reply = self.reply.try_clone(alloc)?;
        BoxedReply::new(alloc, reply)
    }
}

impl fmt::Debug for BoxedReply {
    fn fmt<W: fmt::Write>(&self, f: &mut fmt::Formatter<W>) -> fmt::Result {
        fmt::Debug::fmt(self.as_reply(), f)
    }
}

/// A copy of a text, if there is one.
pub fn copy_of(alloc: Global, text: Option<&Text>) -> Result<Option<Text>, AllocError>
    ensures { IfOk result (λ copy. copy ≡ option_copied text.entry) }
{
    match text {
        Some(text) => Ok(Some(text.try_clone(alloc)?)),
        None => Ok(None),
    }
}
