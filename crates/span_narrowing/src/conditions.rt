//! Conditions on the values of a column.
ghost use Rattle.std.specs.Prelude.{◌≡◌, IfOk};
ghost use Rattle.span_narrowing.specs.Conditions.{all_hold, is_so, meets, plain_text};

use span_event::{ArgValue, Text};
use span_table::Column;
use std::alloc::{AllocError, Global};

/// A condition on the value of a column: that it is this text, that it contains it, or that just this is not so.
#[derive(Drop)]
pub struct Condition {
    pub column: Column,
    pub negated: bool,
    pub contains: bool,
    pub text: Text,
}

impl Condition {
    fn meets(&self, alloc: Global, value: &Option<ArgValue>) -> Result<bool, AllocError>
        ensures { IfOk result (λ met. met ≡ meets self.now value.now) }
    {
        let text = plain_text(alloc, value)?;
        let so = self.is_so(text.as_str());
        if self.negated { Ok(!so) } else { Ok(so) }
    }

    fn is_so(&self, text: &str) -> bool
        ensures { result ≡ is_so self.now text.now }
    {
        if self.contains {
            text.contains(self.text.as_str())
        } else {
            text == self.text.as_str()
        }
    }
}

/// Whether each condition holds of the value at its place.
pub(crate) fn all_hold(
    alloc: Global,
    conditions: &[Condition],
    values: &[Option<ArgValue>],
) -> Result<bool, AllocError>
    ensures { IfOk result (λ all. all ≡ all_hold conditions.now values.now) }
{
    let mut left = conditions;
    let mut rest = values;
    'values: while let (Some((condition, later)), Some((value, behind))) = (
        left.split_first(),
        rest.split_first(),
    ) {
        if !condition.meets(alloc, value)? {
            return Ok(false);
        }
        left = later;
        rest = behind;
    }
    Ok(true)
}

// The text of a value. Those of texts are shared, and others take no memory but for a number's.
fn plain_text(alloc: Global, value: &Option<ArgValue>) -> Result<Text, AllocError>
    ensures { IfOk result (λ text. text ≡ plain_text value.now) }
{
    match value {
        None => Ok(Text::empty(alloc)),
        Some(ArgValue::Nil) => Text::of(alloc, "null"),
        Some(ArgValue::Flag(false)) => Text::of(alloc, "false"),
        Some(ArgValue::Flag(true)) => Text::of(alloc, "true"),
        Some(ArgValue::Whole(number)) => {
            let text = format!(in alloc; "{number}")?;
            Text::of(alloc, text.as_str())
        }
        Some(ArgValue::Words(text)) => text.try_clone(alloc),
        Some(ArgValue::Other) => Text::of(alloc, "..."),
    }
}
