//! What a number in a text is read as.
ghost use Rattle.std.specs.Prelude.{◌≡◌, ◌==◌, ◌<◌, IsTrue, length, slice_index, true, false, option_map, Some, None};
ghost use Rattle.serde_json.specs.{Data.number, Read.{number_of, number_from, float_of}};
ghost use Rattle.span_read.specs.{Fields.field_value, Tokens.kind_of};

use fast_float::Numeral;

/// A number in a text, by its kind.
pub(crate) enum Number {
    Whole(i64),
    Float(f64),
    /// From 2^63 on.
    Other,
    /// Too large for a float, so that the text that it stands in is refused.
    TooLarge,
}

#[inline(always)]
pub(crate) fn number_of(text: &str) -> Number
    ensures { kind_of result ≡ option_map (λ n. field_value (number n)) (number_of text.now) }
{
    let bytes = text.as_bytes();
    if has_minus(bytes) {
        negative_value(&Numeral::scan(&bytes[1..]))
    } else {
        unsigned_value(&Numeral::scan(bytes))
    }
}

#[inline(always)]
fn has_minus(bytes: &[u8]) -> bool
    ensures value { result ≡ (slice_index bytes.now 0 == 45) }
    ensures len { IsTrue result → 0 < length bytes.now }
{
    !bytes.is_empty() && bytes[0] == b'-'
}

#[inline(always)]
fn unsigned_value(numeral: &Numeral<'_>) -> Number
    ensures { kind_of result
        ≡ option_map (λ n. field_value (number n)) (number_from false numeral.now) }
{
    match numeral.to_u64() {
        Some(n) => if n <= i64::MAX as u64 {
            Number::Whole(n as i64)
        } else {
            Number::Other
        },
        None => float_value(false, numeral),
    }
}

#[inline(always)]
fn negative_value(numeral: &Numeral<'_>) -> Number
    ensures { kind_of result
        ≡ option_map (λ n. field_value (number n)) (number_from true numeral.now) }
{
    if let Some(n) = numeral.to_i64(true) {
        if n < 0 {
            return Number::Whole(n);
        }
    }
    float_value(true, numeral)
}

fn float_value(negative: bool, numeral: &Numeral<'_>) -> Number
    ensures { kind_of result
        ≡ option_map (λ n. field_value (number n)) (float_of negative numeral.now) }
{
    let number = numeral.to_float::<f64>(negative);
    if number.is_finite() {
        Number::Float(number)
    } else {
        Number::TooLarge
    }
}
