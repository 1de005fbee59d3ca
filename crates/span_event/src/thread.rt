//! The thread that an event is on.
ghost use Rattle.std.specs.Prelude.{◌≡◌};
ghost use Rattle.span_event.specs.Thread.{thread_of};

use crate::event::Event;

/// A thread of a process. Ordered by its fields in their order.
#[derive(Clone, Copy, Debug, PartialEq, Eq, PartialOrd, Ord, Hash)]
pub struct Thread {
    pub pid: i64,
    pub tid: i64,
}

impl Thread {
    /// The thread that an event is on.
    pub fn of(event: &Event) -> Thread
        ensures { result ≡ thread_of event.now }
    {
        Thread {
            pid: event.pid,
            tid: event.tid,
        }
    }
}
