//! Why stacks are not made.
ghost use Rattle.std.specs.Prelude.{◌≡◌};

use std::alloc::{AllocError, AllocFailed};

/// Why stacks were not made.
#[derive(Clone, Copy, Debug, PartialEq, Eq)]
pub enum StacksFault {
    /// Memory was refused.
    Memory,
    /// They have too many names, or too many frames.
    TooLarge,
}

impl From<AllocError> for StacksFault {
    ghost use Rattle.span_report.specs.declared.stacks.fault.StacksFault.TheVariants.{Memory};

    ghost from_gives = { λ _ fault. fault ≡ Memory };

    fn from(_refused: AllocError) -> StacksFault {
        StacksFault::Memory
    }
}

impl<T: Drop> From<AllocFailed<T>> for StacksFault {
    ghost use Rattle.span_report.specs.declared.stacks.fault.StacksFault.TheVariants.{Memory};

    ghost from_gives = { λ _ fault. fault ≡ Memory };

    fn from(_refused: AllocFailed<T>) -> StacksFault {
        StacksFault::Memory
    }
}
