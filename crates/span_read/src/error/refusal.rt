//! Why an element's event isn't made.
ghost use Rattle.std.specs.Prelude.{◌≡◌};

use span_event::ItemFault;
use std::alloc::AllocError;

#[derive(Drop)]
pub(crate) enum Refusal {
    Fault(ItemFault),
    Memory,
}

impl From<ItemFault> for Refusal {
    ghost use Rattle.span_read.specs.declared.error.refusal.Refusal.TheVariants.{Fault};

    ghost from_gives = { λ fault refusal. refusal ≡ Fault fault };

    fn from(fault: ItemFault) -> Refusal {
        Refusal::Fault(fault)
    }
}

impl From<AllocError> for Refusal {
    ghost use Rattle.span_read.specs.declared.error.refusal.Refusal.TheVariants.{Memory};

    ghost from_gives = { λ error refusal. refusal ≡ Memory };

    fn from(_error: AllocError) -> Refusal {
        Refusal::Memory
    }
}
