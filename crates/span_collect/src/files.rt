//! The files of a collection, and how each of them ended.
ghost use Rattle.std.specs.Prelude.{◌≡◌};
ghost use Rattle.span_collect.specs.{Account.caller_named, Run.is_refused};

use span_event::Text;
use span_journal::Cause;

/// A file: its name, and the bytes that were read of it.
#[derive(Debug, Drop)]
pub struct Input {
    pub name: Text,
    pub bytes: Vec<u8>,
}

/// How the collection of one file ended. `caller` is the number under which the journal has its items.
#[derive(Clone, Copy, Debug, PartialEq, Eq)]
pub enum FileEnd {
    /// The file was read whole, and all its items stand in the journal.
    Read {
        caller: u32,
        items: u32,
    },
    /// The bytes are no trace, by one of the numbers 1 to 4; the journal has no entry of the file.
    Refused {
        caller: u32,
        code: u16,
    },
    /// The journal has the first `done` items and took no more: 31 Memory or 32 Full.
    Stopped {
        caller: u32,
        done: u32,
        cause: Cause,
    },
    /// 42: the file was not begun.
    NotStarted,
}

impl FileEnd {
    /// The number under which the journal has the file's items; None where the file was not begun.
    pub fn caller(&self) -> Option<u32>
        ensures { result ≡ caller_named self.now }
    {
        match self {
            FileEnd::Read { caller, .. }
            | FileEnd::Refused { caller, .. }
            | FileEnd::Stopped { caller, .. } => Some(*caller),
            FileEnd::NotStarted => None,
        }
    }

    pub(crate) fn is_refused(&self) -> bool
        ensures { result ≡ is_refused self.now }
    {
        matches!(self, FileEnd::Refused { .. })
    }
}
