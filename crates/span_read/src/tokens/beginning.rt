//! The beginning of a value.
ghost use Rattle.std.specs.Prelude.{◌≡◌, ◌∷◌, ℕ, List, None, IfOk, OnErr};
ghost use Rattle.json.specs.{Reads.token_of, Token.Token as SpecToken};
ghost use Rattle.span_read.specs.Tokens.{data_at, TakesBeginning};

use crate::tokens::number::{Number, number_of};
use json::{Invalid, Reader, Token};

/// The bracket of an array or an object, or else the whole value.
#[derive(Drop)]
pub(crate) enum Beginning<'a> {
    Object,
    Array,
    Words(&'a str),
    Whole(i64),
    Float(f64),
    Flag(bool),
    Nil,
    Other,
}

#[inline(always)]
pub(crate) fn next_beginning<'a>(reader: &mut Reader<'a>) -> Result<Beginning<'a>, Invalid>
    ensures beginning { IfOk result (λ beginning. TakesBeginning beginning reader.old reader.new) }
    ensures refused { OnErr result ((depth : ℕ) → data_at depth reader.old ≡ None) }
{
    let token = reader.next().ok_or(Invalid)?;
    beginning_of(token)
}

/// The beginning of a value whose first token was taken.
#[inline(always)]
pub(crate) fn beginning_of<'a>(token: Token<'a>) -> Result<Beginning<'a>, Invalid>
    ensures beginning { IfOk result (λ beginning. (ts : List SpecToken)
        → TakesBeginning beginning (token_of token.entry ∷ ts) ts) }
    ensures refused { OnErr result ((depth : ℕ) (ts : List SpecToken)
        → data_at depth (token_of token.entry ∷ ts) ≡ None) }
{
    match token {
        Token::BeginObject => Ok(Beginning::Object),
        Token::BeginArray => Ok(Beginning::Array),
        Token::String(text) => Ok(Beginning::Words(text)),
        Token::Number(text) => match number_of(text) {
            Number::Whole(number) => Ok(Beginning::Whole(number)),
            Number::Float(number) => Ok(Beginning::Float(number)),
            Number::Other => Ok(Beginning::Other),
            Number::TooLarge => Err(Invalid),
        },
        Token::Bool(flag) => Ok(Beginning::Flag(flag)),
        Token::Null => Ok(Beginning::Nil),
        Token::EndObject | Token::EndArray | Token::Key(_) | Token::Bad => Err(Invalid),
    }
}
