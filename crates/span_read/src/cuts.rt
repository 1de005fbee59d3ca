//! Places at which a text can be cut: commas between two objects, of which the second begins as wanted.
//!
//! No cut has to be right. But one within an element costs its time, and elements may have objects in lists of their own, which mostly
//! begin with another key than elements do.
ghost use Rattle.std.specs.Prelude.{◌<◌, ◌≤◌, length, IfSome};
ghost use Rattle.span_read.specs.Parts.{IsCut};

use crate::candidates::opens_with;

/// So many bytes are looked through for a cut behind which an element begins as the first does, before any other is taken.
const NEAR: usize = 1 << 18;

/// A key of more bytes isn't looked for, since it would be compared with as many behind each comma.
const LONGEST_KEY: usize = 64;

/// What stands in the first element of a trace before its first colon, without the brace; no text where that can't be told, or is long.
pub(crate) fn key_of_elements(text: &str) -> &str {
    match first_key(text) {
        Some(key) if key.len() <= LONGEST_KEY => key,
        _ => "",
    }
}

fn first_key(text: &str) -> Option<&str> {
    let elements = if opens_with(text, b'[') {
        text
    } else {
        let (_, behind) = text.split_once("\"traceEvents\"")?;
        behind
    };
    let (_, element) = elements.split_once('{')?;
    let (key, _) = element.split_once(':')?;
    Some(key)
}

/// A cut from this place on, as the texts before and behind its comma: near it the first behind which this key stands, or else the
/// first of all.
pub(crate) fn first_cut<'a>(text: &'a str, from: usize, key: &str) -> Option<(&'a str, &'a str)>
    ensures { IfSome result (λ cut. IsCut text.now cut.0.now cut.1.now) }
{
    let end = text.len();
    let near = end.min(from.saturating_add(NEAR));
    match first_in(text, from, near, key) {
        Some(cut) => Some(cut),
        None => first_in(text, from, end, ""),
    }
}

/// The same from the end of the text backwards.
pub(crate) fn last_cut<'a>(text: &'a str, key: &str) -> Option<(&'a str, &'a str)>
    ensures { IfSome result (λ cut. IsCut text.now cut.0.now cut.1.now) }
{
    let end = text.len();
    match last_in(text, end.saturating_sub(NEAR), key) {
        Some(cut) => Some(cut),
        None => last_in(text, 0, ""),
    }
}

// The first cut between two places.
fn first_in<'a>(text: &'a str, from: usize, to: usize, key: &str) -> Option<(&'a str, &'a str)>
    requires { to ≤ length text.now }
    ensures { IfSome result (λ cut. IsCut text.now cut.0.now cut.1.now) }
{
    for place in from..to {
        if let Some(cut) = cut_at(text, place, key) {
            return Some(cut);
        }
    }
    None
}

// The last cut from a place on.
fn last_in<'a>(text: &'a str, from: usize, key: &str) -> Option<(&'a str, &'a str)>
    ensures { IfSome result (λ cut. IsCut text.now cut.0.now cut.1.now) }
{
    let mut place = text.len();
    while place > from {
        place -= 1;
        if let Some(cut) = cut_at(text, place, key) {
            return Some(cut);
        }
    }
    None
}

// The cut at a place, if the comma there is one behind which this key stands.
fn cut_at<'a>(text: &'a str, place: usize, key: &str) -> Option<(&'a str, &'a str)>
    requires { place < length text.now }
    ensures { IfSome result (λ cut. IsCut text.now cut.0.now cut.1.now) }
{
    let bytes = text.as_bytes();
    if place == 0 || bytes[place] != b',' || bytes[place - 1] != b'}' {
        return None;
    }
    let rest = &text[place + 1..];
    if opens_with(rest, b'{') && begins_with(rest, key) {
        Some((&text[..place], rest))
    } else {
        None
    }
}

// Whether this key follows the first brace.
fn begins_with(text: &str, key: &str) -> bool {
    match text.split_once('{') {
        Some((_, element)) => element.starts_with(key),
        None => false,
    }
}
