//! What a caller can ask of the entries so far.
ghost use Rattle.std.specs.Prelude.{◌≡◌, IfOk};

use span_event::Text;
use span_keyed_tracks::{AsyncKey, FlowKey, SeriesKey};
use std::alloc::{AllocError, Global};

/// A question about the entries before it. It is an entry itself, and changes nothing else.
#[derive(Debug, Drop, PartialEq, Eq)]
pub enum Query {
    /// The open spans and the busy time of a thread, and the time of its last begin, end or seal.
    Thread { pid: i64, tid: i64 },
    /// The closed spans of a name on a thread.
    Name { pid: i64, tid: i64, name: Text },
    /// The asynchronous spans of a key.
    AsyncOf(AsyncKey),
    /// The flow chains of a key.
    FlowOf(FlowKey),
    /// The samples of a series.
    Series(SeriesKey),
    /// The names of a process, or of one of its threads.
    NamesOf { pid: i64, tid: Option<i64> },
    /// How many entries of each kind there are.
    Counts,
}

impl Query {
    /// A copy, which shares long texts. It fails where there are 2^63 copies of one.
    pub fn try_clone(&self, alloc: Global) -> Result<Query, AllocError>
        ensures { IfOk result (λ query. query ≡ self.now) }
    {
        match self {
            Query::Thread { pid, tid } => Ok(Query::Thread {
                pid: *pid,
                tid: *tid,
            }),
            Query::Name { pid, tid, name } => {
                let name = name.try_clone(alloc)?;
                Ok(Query::Name {
                    pid: *pid,
                    tid: *tid,
                    name,
                })
            }
            Query::AsyncOf(key) => Ok(Query::AsyncOf(key.try_clone(alloc)?)),
            Query::FlowOf(key) => Ok(Query::FlowOf(key.try_clone(alloc)?)),
            Query::Series(key) => Ok(Query::Series(key.try_clone(alloc)?)),
            Query::NamesOf { pid, tid } => Ok(Query::NamesOf {
                pid: *pid,
                tid: *tid,
            }),
            Query::Counts => Ok(Query::Counts),
        }
    }
}
