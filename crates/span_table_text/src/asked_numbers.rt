//! Which numbers of a table a text shows, and by which of them its rows go.
ghost use Rattle.std.specs.Prelude.{◌≡◌, IfOk};
ghost use Rattle.span_table_text.specs.AskedNumbers.{first_number, in_order, leading_number, shown_numbers};

use span_table::{Audience, Number, Of, Schema, are_same, has_number};
use std::alloc::{AllocError, Global};

/// The numbers that a text is to show.
#[derive(Drop)]
pub struct AskedNumbers {
    pub audience: Audience,
    /// Those that are named, in their order. Where none is, a table's own are shown.
    pub named: Vec<Number>,
    /// The number that rows are to go by.
    pub by: Option<Number>,
}

impl AskedNumbers {
    /// The numbers that are shown of a table that has these.
    pub fn shown(&self, alloc: Global, of: Of, own: &[Number]) -> Result<Vec<Number>, AllocError>
        ensures { IfOk result (λ shown. shown.items ≡ shown_numbers self.now of own.now) }
    {
        let mut shown = Vec::new(alloc);
        if !self.named.is_empty() {
            shown.extend_from_slice(&self.named)?;
            return Ok(shown);
        }
        let own = in_order(self.audience, of, own);
        if let Some(by) = self.by
            && !has_number(own, by)
        {
            shown.push(by)?;
        }
        shown.extend_from_slice(own)?;
        Ok(shown)
    }

    /// The number that the rows of a table of what is shown go by.
    pub fn leading(&self, schema: &Schema) -> Number
        ensures { result ≡ leading_number self.now schema.now }
    {
        match self.by {
            Some(by) => by,
            None => self.first(schema),
        }
    }

    fn first(&self, schema: &Schema) -> Number
        ensures { result ≡ first_number self.now schema.now }
    {
        let usual = schema.of.by();
        let numbers = schema.numbers.as_slice();
        if self.named.is_empty() && are_same(numbers, schema.of.numbers(Audience::Programs)) {
            return usual;
        }
        match numbers.first() {
            Some(number) => *number,
            None => usual,
        }
    }
}

// A table's own numbers: the usual ones in the order of this audience.
fn in_order(audience: Audience, of: Of, own: &[Number]) -> &[Number]
    ensures { result.now ≡ in_order audience of own.now }
{
    if are_same(own, of.numbers(Audience::Programs)) {
        return of.numbers(audience);
    }
    own
}
