//! An element of a trace, as it is read.
ghost use Rattle.std.specs.Prelude.{◌≡◌};
ghost use Rattle.span_event.specs.Item.{as_fault, code_of};

use crate::event::Event;
use crate::fault::Fault;

/// A field of an event whose value can be of a wrong kind.
#[derive(Clone, Copy, Debug, PartialEq, Eq)]
pub enum Field {
    Pid,
    Tid,
    Name,
    Cat,
    Id,
    Scope,
}

/// Why an element of a trace is no event. Each has its number, from 11 to 19.
#[derive(Clone, Copy, Debug, PartialEq, Eq)]
pub enum ItemFault {
    /// 11: the element is no object.
    NotObject,
    /// 12: `ph` is missing or no text.
    NoPhase,
    /// 13: `ts` is missing.
    NoTime,
    /// 14: `ts`, or the `dur` of a complete event, is no whole number of its range.
    NotWhole,
    /// 15: a complete event has no `dur`.
    NoDuration,
    /// 16: a field is of a wrong kind.
    BadField(Field),
    /// 17: an asynchronous or flow event has no id.
    NoId,
    /// 18: the `s` of an instant is none of `g`, `p` and `t`.
    BadReach,
    /// 19: a member of a counter's `args` is no whole number.
    BadSeries,
}

impl ItemFault {
    /// The fault that it is in the table of all faults.
    pub fn fault(&self) -> Fault
        ensures { result ≡ as_fault self.now }
    {
        match self {
            ItemFault::NotObject => Fault::NotObject,
            ItemFault::NoPhase => Fault::NoPhase,
            ItemFault::NoTime => Fault::NoTime,
            ItemFault::NotWhole => Fault::NotWhole,
            ItemFault::NoDuration => Fault::NoDuration,
            ItemFault::BadField(_) => Fault::BadField,
            ItemFault::NoId => Fault::NoId,
            ItemFault::BadReach => Fault::BadReach,
            ItemFault::BadSeries => Fault::BadSeries,
        }
    }

    /// The number of the fault, from 11 to 19, as each variant has it.
    pub fn code(&self) -> u16
        ensures { result ≡ code_of self.now }
    {
        self.fault().code()
    }
}

/// One element of a trace, as read.
#[derive(Debug, Drop)]
pub enum Item {
    Good(Event),
    Bad(ItemFault),
    /// An event of a phase that is not used.
    Other,
}
