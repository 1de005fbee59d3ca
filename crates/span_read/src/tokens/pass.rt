//! Values that are passed over. They are checked all the same.
ghost use Rattle.std.specs.Prelude.{◌≡◌, ◌∷◌, None, OnOk, OnErr, ⊤};
ghost use Rattle.json.specs.Reads.{token_of};
ghost use Rattle.span_read.specs.Tokens.{data_at, TakesValue, TakesArray, TakesObject};
ghost use Rattle.json.specs.Token as spec;

use crate::tokens::beginning::{Beginning, beginning_of};
use json::{Invalid, Reader, Token};

#[cycle(pass)]
#[inline(always)]
pub(crate) fn pass_value(reader: &mut Reader<'_>, depth: usize) -> Result<(), Invalid>
    ensures taken { OnOk result (TakesValue depth reader.old reader.new (λ d. ⊤)) }
    ensures refused { OnErr result (data_at depth reader.old ≡ None) }
{
    let token = reader.next().ok_or(Invalid)?;
    pass_begun(reader, token, depth)
}

/// The rest of a value whose first token was taken.
#[cycle(pass)]
#[inline(always)]
pub(crate) fn pass_begun(
    reader: &mut Reader<'_>,
    token: Token<'_>,
    depth: usize,
) -> Result<(), Invalid>
    ensures taken { OnOk result
        (TakesValue depth (token_of token.entry ∷ reader.old) reader.new (λ d. ⊤)) }
    ensures refused { OnErr result (data_at depth (token_of token.entry ∷ reader.old) ≡ None) }
{
    match beginning_of(token)? {
        Beginning::Array => pass_array(reader, depth),
        Beginning::Object => pass_object(reader, depth),
        _ => Ok(()),
    }
}

/// The rest of an array whose bracket was taken.
#[cycle(pass)]
#[inline(never)]
pub(crate) fn pass_array(reader: &mut Reader<'_>, depth: usize) -> Result<(), Invalid>
    ensures taken { OnOk result (TakesArray depth reader.old reader.new (λ ds. ⊤)) }
    ensures refused { OnErr result (data_at depth (spec.begin_array ∷ reader.old) ≡ None) }
{
    if depth == 0 {
        return Err(Invalid);
    }
    'items: while !reader.take_end_array() {
        pass_value(reader, depth - 1)?;
    }
    Ok(())
}

/// The rest of an object whose bracket was taken.
#[cycle(pass)]
#[inline(never)]
pub(crate) fn pass_object(reader: &mut Reader<'_>, depth: usize) -> Result<(), Invalid>
    ensures taken { OnOk result (TakesObject depth reader.old reader.new (λ ms. ⊤)) }
    ensures refused { OnErr result (data_at depth (spec.begin_object ∷ reader.old) ≡ None) }
{
    if depth == 0 {
        return Err(Invalid);
    }
    'members: while let Some(_name) = reader.next_key()? {
        pass_value(reader, depth - 1)?;
    }
    Ok(())
}
