//! The tokens of a line.
ghost use Rattle.std.specs.Prelude.{◌≡◌, ◌≢◌, ◌<◌, ◌^◌, ◌++◌, ◌∷◌, ℕ, List, Some, decimal, map, IfNone, IfOk, IfSome, IsNone};
ghost use Rattle.json.specs.{Lex.tokens, Reads.token_of, Token.{Token as TheToken, key, string}};
ghost use Rattle.span_parts.specs.{Bytes, number_tokens, Guess.{Finds, Remains}};

use json::{Reader, Scratch, Token};
use std::alloc::{AllocError, Global};

// A row of four columns has so many.
const TOKENS: usize = 16;

/// The tokens of a line; what is no JSON ends with a bad one.
pub(crate) fn tokens_of<'a>(
    alloc: Global,
    line: &'a str,
    scratch: &'a mut Scratch,
) -> Result<Vec<Token<'a>>, AllocError>
    ensures { IfOk result (λ found. map token_of found.items ≡ tokens line.now) }
{
    let mut reader = Reader::new(line, scratch)?;
    let mut found = Vec::with_capacity(alloc, TOKENS)?;
    while let Some(token) = reader.next() {
        found.push(token)?;
    }
    Ok(found)
}

/// What is behind this key, if it is next.
pub(crate) fn key_after<'t, 'a>(tokens: &'t [Token<'a>], name: &str) -> Option<&'t [Token<'a>]>
    ensures there { (rest : List TheToken) → map token_of tokens.now ≡ key name.now ∷ rest
        → Remains rest result }
    ensures missing { (other : Bytes) (rest : List TheToken) → other ≢ name.now
        → map token_of tokens.now ≡ key other ∷ rest → IsNone result }
{
    let (first, rest) = tokens.split_first()?;
    match first {
        Token::Key(key) if *key == name => Some(rest),
        _ => None,
    }
}

/// The text that is next, if one is, and what is behind it.
pub(crate) fn text_after<'t, 'a>(tokens: &'t [Token<'a>]) -> Option<(&'t str, &'t [Token<'a>])>
    ensures text { IfSome result (λ found. map token_of tokens.now
        ≡ string found.0.now ∷ map token_of found.1.now) }
    ensures none { IfNone result ((text : Bytes) (rest : List TheToken)
        → map token_of tokens.now ≢ string text ∷ rest) }
{
    let (first, rest) = tokens.split_first()?;
    match first {
        Token::String(text) => Some((text, rest)),
        _ => None,
    }
}

/// The number behind a key, if this key is next, and the tokens behind it.
pub(crate) fn number_after<'t, 'a>(
    tokens: &'t [Token<'a>],
    name: &str,
) -> Option<(u64, &'t [Token<'a>])>
    ensures { (number : ℕ) (rest : List TheToken) → number < 2 ^ 64
        → map token_of tokens.now ≡ number_tokens name.now number ++ rest
        → Finds number rest result }
{
    let (first, rest) = key_after(tokens, name)?.split_first()?;
    match first {
        Token::Number(text) => Some((number_of(text)?, rest)),
        _ => None,
    }
}

fn number_of(text: &str) -> Option<u64>
    ensures { (number : ℕ) → number < 2 ^ 64 → text.now ≡ decimal number → result ≡ Some number }
{
    match text.parse::<u64>() {
        Ok(number) => Some(number),
        Err(_) => None,
    }
}

/// What is behind one token, whatever it is.
pub(crate) fn after_one<'t, 'a>(tokens: &'t [Token<'a>]) -> Option<&'t [Token<'a>]>
    ensures { (token : TheToken) (rest : List TheToken) → map token_of tokens.now ≡ token ∷ rest
        → Remains rest result }
{
    let (_, rest) = tokens.split_first()?;
    Some(rest)
}
