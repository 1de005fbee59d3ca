//! Why a page isn't made.
ghost use Rattle.std.specs.Prelude.{◌≡◌, ◌≤◌, length, IfErr, OnOk};
ghost use Rattle.span_page.specs.Bounds.{IsFaultOf, most_bytes};

use std::alloc::{AllocError, AllocFailed};

// How many bytes a page may have.
const MOST_BYTES: usize = 268_435_456;

/// Why a page was not made.
#[derive(Clone, Copy, Debug, PartialEq, Eq)]
pub enum PageFault {
    /// Memory was refused.
    Memory,
    /// It has more bytes than a browser opens.
    TooLarge,
}

impl From<AllocError> for PageFault {
    ghost use Rattle.span_page.specs.declared.fault.PageFault.TheVariants.{Memory};

    ghost from_gives = { λ _ fault. fault ≡ Memory };

    fn from(_refused: AllocError) -> PageFault {
        PageFault::Memory
    }
}

impl<T: Drop> From<AllocFailed<T>> for PageFault {
    ghost use Rattle.span_page.specs.declared.fault.PageFault.TheVariants.{Memory};

    ghost from_gives = { λ _ fault. fault ≡ Memory };

    fn from(_refused: AllocFailed<T>) -> PageFault {
        PageFault::Memory
    }
}

/// Refuses a text that is too long for a page, and so for the beginning of one.
pub(crate) fn check_length(text: &[u8]) -> Result<(), PageFault>
    ensures fits { OnOk result (length text.now ≤ most_bytes) }
    ensures full { IfErr result (IsFaultOf text.now) }
{
    if text.len() > MOST_BYTES {
        return Err(PageFault::TooLarge);
    }
    Ok(())
}
