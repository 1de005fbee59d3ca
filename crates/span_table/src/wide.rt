//! Numbers of 128 bits.
ghost use Rattle.std.specs.Prelude.{◌≡◌, ◌+◌, ◌^◌, nat_lt, IfOk};

use std::alloc::AllocError;

/// Both together. What needs more than 128 bits is refused as memory is: no table comes to it, since 2^64 spans would have to be as long
/// as can be.
pub(crate) fn plus(number: u128, more: u128) -> Result<u128, AllocError>
    ensures { IfOk result (λ sum. sum ≡ number + more) }
{
    number.checked_add(more).ok_or(AllocError)
}

/// Whether the number has 64 bits.
pub(crate) fn is_narrow(number: u128) -> bool
    ensures { result ≡ nat_lt number (2 ^ 64) }
{
    number < 1 << 64
}
