//! Why a file is refused as a whole.
ghost use Rattle.std.specs.Prelude.{◌≡◌};

pub(crate) mod refusal;
pub(crate) mod stop;

use span_event::Fault;
use thiserror::Error;

/// Why a file is refused, each with its number.
#[derive(Debug, Drop, Error)]
pub enum ReadError {
    /// 3: the file has more bytes than the format allows.
    #[error("the file is too large")]
    TooLarge,
    /// 1: no candidate text reads as JSON.
    #[error("the file is not JSON")]
    NotJson,
    /// 2: the document is neither an array nor an object with an array `traceEvents`.
    #[error("the file is not a trace")]
    NotTrace,
    /// 4: the trace has more elements than the format allows.
    #[error("the trace has too many items")]
    TooMany,
    /// 31: memory ran out.
    #[error("out of memory")]
    Memory,
}

impl ReadError {
    ghost use Rattle.span_read.specs.ReadError.{as_fault, code_of};

    /// The fault that it is in the table of all faults.
    pub fn fault(&self) -> Fault
        ensures { result ≡ as_fault self.now }
    {
        match self {
            ReadError::TooLarge => Fault::TooLarge,
            ReadError::NotJson => Fault::NotJson,
            ReadError::NotTrace => Fault::NotTrace,
            ReadError::TooMany => Fault::TooMany,
            ReadError::Memory => Fault::Memory,
        }
    }

    /// The number of the fault, as each variant has it.
    pub fn code(&self) -> u16
        ensures { result ≡ code_of self.now }
    {
        self.fault().code()
    }
}
