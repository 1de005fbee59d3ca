//! Why the reading of a text stops.
ghost use Rattle.std.specs.Prelude.{◌≡◌};

use json::Invalid;
use std::alloc::{AllocError, AllocFailed};

#[derive(Drop)]
pub(crate) enum Stop {
    NotJson,
    Memory,
}

impl From<Invalid> for Stop {
    ghost use Rattle.span_read.specs.declared.error.stop.Stop.TheVariants.{NotJson};

    ghost from_gives = { λ invalid stop. stop ≡ NotJson };

    fn from(_invalid: Invalid) -> Stop {
        Stop::NotJson
    }
}

impl From<AllocError> for Stop {
    ghost use Rattle.span_read.specs.declared.error.stop.Stop.TheVariants.{Memory};

    ghost from_gives = { λ error stop. stop ≡ Memory };

    fn from(_error: AllocError) -> Stop {
        Stop::Memory
    }
}

impl<T: Drop> From<AllocFailed<T>> for Stop {
    ghost use Rattle.span_read.specs.declared.error.stop.Stop.TheVariants.{Memory};

    ghost from_gives = { λ failed stop. stop ≡ Memory };

    fn from(_failed: AllocFailed<T>) -> Stop {
        Stop::Memory
    }
}
