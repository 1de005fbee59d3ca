//! The items of a trace, as the tokens of its text give them.
ghost use Rattle.std.specs.Prelude.{◌≡◌, ◌∷◌, Some, None, Bool, IfOk};
ghost use Rattle.serde_json.specs.{Data.object, Find.as_array};
ghost use Rattle.span_read.specs.{Document.{elements_of, doc_of_elements, doc_of_document}, Divided.{left_of, IsRead, IsWhole}, Ending.{ended, with_bracket}, Tokens.{data_at, data_of_all, TakesValue, TakesArray, TakesObject, TakesElements, IsNotJson}};
ghost use Rattle.json.specs.Token as spec;

use crate::divided::Divided;
use crate::elements::{Elements, End, Found};
use crate::error::ReadError;
use crate::error::stop::Stop;
use crate::format::Format;
use crate::tokens::beginning::{Beginning, next_beginning};
use crate::tokens::pass::{pass_object, pass_value};
use json::{Invalid, Token};

/// Reads the document that all the tokens are, or that they are with a closing bracket behind them.
pub(crate) fn read_all(
    text: &mut Divided<'_>,
    format: Format,
    depth: usize,
    bracket: bool,
) -> Result<Found, Stop>
    requires { IsRead text.old }
    ensures found { IfOk result (λ found.
        found ≡ doc_of_document format (data_of_all depth (ended bracket (left_of text.old)))) }
    ensures refused { IsWhole text.old → IsNotJson result
        → data_of_all depth (ended bracket (left_of text.old)) ≡ None }
{
    if bracket {
        read_unclosed(text, format, depth)
    } else {
        read_whole(text, format, depth)
    }
}

/// The document that all the tokens are.
fn read_whole(text: &mut Divided<'_>, format: Format, depth: usize) -> Result<Found, Stop>
    requires { IsRead text.old }
    ensures found { IfOk result (λ found.
        found ≡ doc_of_document format (data_of_all depth (left_of text.old))) }
    ensures refused { IsWhole text.old → IsNotJson result → data_of_all depth (left_of text.old) ≡ None }
{
    let found = read_document(text, format, depth)?;
    if text.middle.is_some() || text.tokens.reader.next().is_some() {
        return Err(Stop::NotJson);
    }
    Ok(found)
}

/// The array that all the tokens are but for its closing bracket.
fn read_unclosed(text: &mut Divided<'_>, format: Format, depth: usize) -> Result<Found, Stop>
    requires { IsRead text.old }
    ensures found { IfOk result (λ found.
        found ≡ doc_of_document format (data_of_all depth (with_bracket (left_of text.old)))) }
    ensures refused { IsWhole text.old → IsNotJson result → data_of_all depth (with_bracket (left_of text.old)) ≡ None }
{
    let token = text.tokens.reader.next().ok_or(Invalid)?;
    let Token::BeginArray = token else {
        return Err(Stop::NotJson);
    };
    match collect_elements(text, format, depth)? {
        (found, End::Text) => Ok(found),
        // The bracket behind the text would be left over.
        (_, End::Bracket) => Err(Stop::NotJson),
    }
}

fn read_document(text: &mut Divided<'_>, format: Format, depth: usize) -> Result<Found, Stop>
    requires { IsRead text.old }
    ensures found { IfOk result (λ found. TakesValue depth (left_of text.old) (left_of text.new)
        (λ d. found ≡ doc_of_elements format (elements_of d))) }
    ensures refused { IsWhole text.old → IsNotJson result → data_at depth (left_of text.old) ≡ None }
    ensures whole { IsWhole text.old → IsWhole text.new }
    ensures read { IsRead text.new }
{
    match next_beginning(&mut text.tokens.reader)? {
        Beginning::Object => read_object(text, format, depth),
        Beginning::Array => read_elements(text, format, depth),
        _ => Ok(Err(ReadError::NotTrace)),
    }
}

/// What the last member `traceEvents` of an object has, whose bracket was taken.
fn read_object(text: &mut Divided<'_>, format: Format, depth: usize) -> Result<Found, Stop>
    requires { IsRead text.old }
    ensures found { IfOk result (λ found. TakesObject depth (left_of text.old) (left_of text.new)
        (λ ms. found ≡ doc_of_elements format (elements_of (object ms)))) }
    ensures refused { IsWhole text.old → IsNotJson result
        → data_at depth (spec.begin_object ∷ (left_of text.old)) ≡ None }
    ensures whole { IsWhole text.old → IsWhole text.new }
    ensures read { IsRead text.new }
{
    if depth == 0 {
        return Err(Stop::NotJson);
    }
    let mut found = Err(ReadError::NotTrace);
    'members: while let Some(name) = text.tokens.reader.next_key()? {
        if name == "traceEvents" {
            found = read_trace_events(text, format, depth - 1)?;
        } else {
            pass_value(&mut text.tokens.reader, depth - 1)?;
        }
    }
    Ok(found)
}

fn read_trace_events(text: &mut Divided<'_>, format: Format, depth: usize) -> Result<Found, Stop>
    requires { IsRead text.old }
    ensures found { IfOk result (λ found. TakesValue depth (left_of text.old) (left_of text.new)
        (λ d. found ≡ doc_of_elements format (as_array d))) }
    ensures refused { IsWhole text.old → IsNotJson result → data_at depth (left_of text.old) ≡ None }
    ensures whole { IsWhole text.old → IsWhole text.new }
    ensures read { IsRead text.new }
{
    match next_beginning(&mut text.tokens.reader)? {
        Beginning::Object => {
            pass_object(&mut text.tokens.reader, depth)?;
            Ok(Err(ReadError::NotTrace))
        }
        Beginning::Array => read_elements(text, format, depth),
        _ => Ok(Err(ReadError::NotTrace)),
    }
}

/// The rest of an array whose bracket was taken, with the bracket that closes it.
fn read_elements(text: &mut Divided<'_>, format: Format, depth: usize) -> Result<Found, Stop>
    requires { IsRead text.old }
    ensures found { IfOk result (λ found. TakesArray depth (left_of text.old) (left_of text.new)
        (λ ds. found ≡ doc_of_elements format (Some ds))) }
    ensures refused { IsWhole text.old → IsNotJson result
        → data_at depth (spec.begin_array ∷ (left_of text.old)) ≡ None }
    ensures whole { IsWhole text.old → IsWhole text.new }
    ensures read { IsRead text.new }
{
    match collect_elements(text, format, depth)? {
        (found, End::Bracket) => Ok(found),
        (_, End::Text) => Err(Stop::NotJson),
    }
}

/// The rest of an array whose bracket was taken. Where the tokens end, those of the middle come next, which were read before.
fn collect_elements(
    text: &mut Divided<'_>,
    format: Format,
    depth: usize,
) -> Result<(Found, End), Stop>
    requires { IsRead text.old }
    ensures found { IfOk result (λ end. TakesElements end.1 depth (left_of text.old)
        (left_of text.new) (λ ds. end.0 ≡ doc_of_elements format (Some ds))) }
    ensures refused { IsWhole text.old → IsNotJson result → (bracket : Bool)
        → data_at depth (spec.begin_array ∷ ended bracket (left_of text.old)) ≡ None }
    ensures whole { IsWhole text.old → IsWhole text.new }
    ensures read { IsRead text.new }
{
    if depth == 0 {
        return Err(Stop::NotJson);
    }
    let mut elements = Elements::new(text.tokens.alloc, text.block);
    let end = elements.take(&mut text.tokens, format, depth)?;
    let End::Text = end else {
        return Ok((elements.found(), End::Bracket));
    };
    let Some(middle) = text.middle.take() else {
        return Ok((elements.found(), End::Text));
    };
    if middle.unit != format.unit || middle.depth != depth - 1 {
        return Err(Stop::NotJson);
    }
    elements.add(format, middle.items)?;
    text.tokens.reader = middle.rest;
    let end = elements.take(&mut text.tokens, format, depth)?;
    Ok((elements.found(), end))
}
