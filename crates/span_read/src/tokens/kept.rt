//! What is kept of a value, and of the members of an object.
ghost use Rattle.std.specs.Prelude.{◌≡◌, ◌∷◌, None, IfOk, OnOk};
ghost use Rattle.json.specs.Token.{Token};
ghost use Rattle.serde_json.specs.Data.{Data, Members, no_members, put};
ghost use Rattle.span_read.specs.Tokens.{data_at, TakesValue, TakesObject, IsNotJson};

use crate::error::stop::Stop;
use crate::tokens::Tokens;

/// What is kept of a value of any kind.
pub(crate) trait KeptValue: Drop {
    ghost of: { Data → Self };

    fn read(tokens: &mut Tokens<'_>, depth: usize) -> Result<Self, Stop>
        ensures value { IfOk result (λ kept. TakesValue depth tokens.old.reader tokens.new.reader
            (λ d. of d ≡ kept)) }
        ensures refused { IsNotJson result → data_at depth tokens.old.reader ≡ None };
}

/// What is kept of the members of an object. Of two members of one name the last counts.
pub(crate) trait KeptMembers: Drop {
    ghost of: { Members → Self };

    /// Reads the value of one more member, and keeps what is wanted of it.
    fn keep(&mut self, name: &str, tokens: &mut Tokens<'_>, depth: usize) -> Result<(), Stop>
        ensures kept { OnOk result (TakesValue depth tokens.old.reader tokens.new.reader
            (λ d. (ms : Members) → self.old ≡ of ms → self.new ≡ of (put name.now d ms))) }
        ensures refused { IsNotJson result → data_at depth tokens.old.reader ≡ None };
}

/// The rest of an object whose bracket was taken, into what nothing was kept in.
#[inline(never)]
pub(crate) fn read_members<K: KeptMembers>(
    tokens: &mut Tokens<'_>,
    depth: usize,
    kept: &mut K,
) -> Result<(), Stop>
    requires { kept.old ≡ K.of no_members }
    ensures kept { OnOk result (TakesObject depth tokens.old.reader tokens.new.reader
        (λ ms. kept.new ≡ K.of ms)) }
    ensures refused { IsNotJson result
        → data_at depth (Token.begin_object ∷ tokens.old.reader) ≡ None }
{
    if depth == 0 {
        return Err(Stop::NotJson);
    }
    'members: while let Some(name) = tokens.reader.next_key()? {
        kept.keep(name, tokens, depth - 1)?;
    }
    Ok(())
}
