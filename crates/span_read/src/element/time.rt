//! A time or a length in the unit of a run.
ghost use Rattle.std.specs.{Float.{float_is_finite, Ieee.{Nearest.closest, Positive.{num, den}}}, Prelude.{◌≡◌, ◌<◌, ◌^◌, ◌*◌, ◌≤ℤ◌, pos, option_and_then, true, MatchOption}};
ghost use Rattle.span_read.specs.{natural, greatest_time, Time.{nanoseconds, nanoseconds_of, time_in, within}};

use crate::fields::FieldValue;
use span_event::Unit;

/// 2^53 - 1.
const GREATEST_MICROSECONDS: i64 = 9_007_199_254_740_991;

/// 2^62 - 1.
const GREATEST_NANOSECONDS: i64 = 4_611_686_018_427_387_903;

/// How many of the unit the field says, if it says a number that the unit takes.
pub(crate) fn time_in(unit: Unit, value: &FieldValue) -> Option<i64>
    ensures { result ≡ time_in unit value.now }
{
    match unit {
        Unit::Microseconds => within(GREATEST_MICROSECONDS, value.whole()?),
        Unit::Nanoseconds => nanoseconds_of(value),
    }
}

fn within(greatest: i64, time: i64) -> Option<i64>
    requires { pos 0 ≤ℤ greatest }
    ensures { result ≡ within (natural greatest) time }
{
    if -greatest <= time && time <= greatest {
        Some(time)
    } else {
        None
    }
}

// A number of microseconds as nanoseconds, if they are in range.
fn nanoseconds_of(value: &FieldValue) -> Option<i64>
    ensures { result ≡ option_and_then (within greatest_time) (nanoseconds_of value.now) }
{
    match value {
        FieldValue::Float(microseconds) => nanoseconds(*microseconds),
        _ => within(GREATEST_NANOSECONDS, value.whole()?.checked_mul(1000)?),
    }
}

fn nanoseconds(microseconds: f64) -> Option<i64>
    ensures { result ≡ option_and_then (within greatest_time) (nanoseconds microseconds) }
{
    if !microseconds.is_finite() {
        return None;
    }
    let size = size_in_nanoseconds(microseconds)?;
    if size > GREATEST_NANOSECONDS as u64 {
        None
    } else if microseconds.is_sign_negative() {
        Some(-(size as i64))
    } else {
        Some(size as i64)
    }
}

// The size without its sign, or nothing where it is above the greatest.
fn size_in_nanoseconds(microseconds: f64) -> Option<u64>
    requires { float_is_finite microseconds ≡ true }
    ensures { MatchOption result
        (greatest_time < closest (1000 * num microseconds) (den microseconds))
        (λ size. size ≡ closest (1000 * num microseconds) (den microseconds)) }
{
    // But for 0 and the subnormals, the size is `digits` * 2 ^ (`exponent` - 1075) microseconds.
    let bits = microseconds.to_bits() % 0x8000_0000_0000_0000;
    let exponent = bits / 0x10_0000_0000_0000;
    let digits = 0x10_0000_0000_0000 + bits % 0x10_0000_0000_0000;
    if exponent > 1075 {
        return None;
    }
    let shift = 1075 - exponent;
    if shift > 63 {
        return Some(0);
    }
    Some(shifted_to_nearest(1000 * digits, shift))
}

// `n` / 2^`shift` as the nearest whole number, of two as near the even one.
fn shifted_to_nearest(n: u64, shift: u64) -> u64
    requires small { n < 2 ^ 63 }
    requires few { shift < 64 }
    ensures { result ≡ closest n (2 ^ shift) }
{
    let unit = 1u64 << shift;
    let whole = n >> shift;
    let twice = (n & (unit - 1)) * 2;
    if twice < unit {
        whole
    } else if twice == unit {
        whole + whole % 2
    } else {
        whole + 1
    }
}
