//! Why a part is not added.

use span_table::SumFault;
use std::alloc::AllocError;

/// Why a part is not added, and the sum is lost.
#[derive(Clone, Copy, Debug, PartialEq, Eq)]
pub enum PartFault {
    /// The text is not that of a table that was printed.
    NotTable,
    /// What it sums, its unit or its columns are not those of the parts before it, or it lacks a column that is asked for.
    OtherColumns,
    /// Memory was refused.
    Memory,
    /// There would be 2^32 parts or more.
    TooMany,
}

impl From<AllocError> for PartFault {
    ghost use Rattle.std.specs.Prelude.{◌≡◌};
    ghost use Rattle.span_parts.specs.declared.fault.PartFault.TheVariants.{Memory};

    ghost from_gives = { λ _ e. e ≡ Memory };

    fn from(_refused: AllocError) -> PartFault {
        PartFault::Memory
    }
}

impl From<SumFault> for PartFault {
    ghost use Rattle.span_parts.specs.Rows.{IsOfSum};

    ghost from_gives = { λ _ own. IsOfSum own };

    fn from(fault: SumFault) -> PartFault {
        match fault {
            SumFault::Memory => PartFault::Memory,
            SumFault::TooMany => PartFault::TooMany,
        }
    }
}
