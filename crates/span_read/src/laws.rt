//! The facts that hold of all times.
ghost use Rattle.span_read.specs.Decimals.{ShortDecimalsAreExact};

/// A decimal of microseconds with at most three digits after the point, and with a size below 2^43, which are a hundred days, is read
/// as its own nanoseconds. The function does nothing: its contract is the law.
pub fn decimals_law()
    ensures { ShortDecimalsAreExact }
{}
