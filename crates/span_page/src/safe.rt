//! JSON texts as they may stand in a page.
ghost use Rattle.std.specs.{Bool.OnTrue, Prelude.{◌≡◌, ◌<◌, ◌≤◌, ◌∷◌, ◌++◌, ℕ, List, drop, length, take, IfErr, IfOk, OnOk}};
ghost use Rattle.span_page.specs.{Bounds.IsFaultOf, Safe.{safe, safe_byte}};

use crate::fault::{PageFault, check_length};
use std::alloc::AllocError;

// U+2028 and U+2029, which end a line in a script, and the byte with which they begin.
const LINE_SEPARATOR: &[u8] = b"\xe2\x80\xa8";

const PARAGRAPH_SEPARATOR: &[u8] = b"\xe2\x80\xa9";

const FIRST_OF_SEPARATORS: u8 = 0xe2;

// Appends the text with escapes, and stops as soon as there is more than a page may have.
pub(crate) fn put_safe(out: &mut Vec<u8>, text: &[u8]) -> Result<(), PageFault>
    ensures text { OnOk result (out.new.items ≡ out.old.items ++ safe text.now) }
    ensures full { IfErr result (IsFaultOf (out.old.items ++ safe text.now)) }
{
    let mut rest = text;
    while !rest.is_empty() {
        check_length(out)?;
        rest = put_some(out, rest)?;
    }
    Ok(())
}

// Appends what stands for the first of these bytes, and answers those behind them.
fn put_some<'a>(out: &mut Vec<u8>, text: &'a [u8]) -> Result<&'a [u8], AllocError>
    requires { 0 < length text.now }
    ensures safe { IfOk result (λ rest. out.new.items ++ safe rest.now
        ≡ out.old.items ++ safe text.now) }
    ensures fewer { IfOk result (λ rest. length rest.now < length text.now) }
{
    let plain = plain_length(text);
    if plain == 0 {
        return put_first(out, text);
    }
    out.extend_from_slice(&text[..plain])?;
    Ok(&text[plain..])
}

// With how many bytes the text begins that stand for themselves.
fn plain_length(text: &[u8]) -> usize
    ensures bound { result ≤ length text.now }
    ensures plain { safe text.now ≡ take result text.now ++ safe (drop result text.now) }
{
    let mut plain = 0;
    while plain < text.len() && is_plain(text[plain]) {
        plain += 1;
    }
    plain
}

// Whether a byte stands for itself, whatever is behind it.
fn is_plain(byte: u8) -> bool
    ensures { OnTrue result ((rest : List ℕ) → safe (byte ∷ rest) ≡ byte ∷ safe rest) }
{
    !matches!(byte, b'<' | b'>' | b'&' | FIRST_OF_SEPARATORS)
}

// Appends what stands for a separator, or for the first byte, and answers the bytes behind it.
fn put_first<'a>(out: &mut Vec<u8>, text: &'a [u8]) -> Result<&'a [u8], AllocError>
    requires { 0 < length text.now }
    ensures safe { IfOk result (λ rest. out.new.items ++ safe rest.now
        ≡ out.old.items ++ safe text.now) }
    ensures fewer { IfOk result (λ rest. length rest.now < length text.now) }
{
    if text.starts_with(LINE_SEPARATOR) {
        out.extend_from_slice(b"\\u2028")?;
        return Ok(&text[3..]);
    }
    if text.starts_with(PARAGRAPH_SEPARATOR) {
        out.extend_from_slice(b"\\u2029")?;
        return Ok(&text[3..]);
    }
    put_byte(out, text[0])?;
    Ok(&text[1..])
}

#[tactic(auto, unfolding(crate::specs::Safe::safe_byte))]
fn put_byte(out: &mut Vec<u8>, byte: u8) -> Result<(), AllocError>
    ensures { OnOk result (out.new.items ≡ out.old.items ++ safe_byte byte) }
{
    match byte {
        b'<' => out.extend_from_slice(b"\\u003c"),
        b'>' => out.extend_from_slice(b"\\u003e"),
        b'&' => out.extend_from_slice(b"\\u0026"),
        _ => out.extend_from_slice(&[byte]),
    }
}
