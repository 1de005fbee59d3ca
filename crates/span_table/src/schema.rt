//! What a table sums, by which columns, and which numbers it has.
ghost use Rattle.std.specs.Prelude.{◌≡◌, IfOk};
ghost use Rattle.span_table.specs.Tables.{usual_schema};

use crate::audience::Audience;
use crate::column::{Column, copies_of};
use crate::number::Number;
use crate::of::Of;
use std::alloc::{AllocError, Global};
use std::marker::Model;

/// What a table sums, by which columns, and which numbers it has, in the order in which texts show them.
#[derive(Drop)]
pub struct Schema {
    pub of: Of,
    pub columns: Vec<Column>,
    pub numbers: Vec<Number>,
}

impl Model for Schema {
    ghost use Rattle.span_table.specs.Tables as tables;

    ghost Value = { tables.Schema };

    ghost view = { λ s. record { of = s.of; columns = s.columns.items; numbers = s.numbers.items } };
}

impl Schema {
    pub fn new(
        alloc: Global,
        of: Of,
        columns: &[Column],
        numbers: &[Number],
    ) -> Result<Schema, AllocError>
        ensures { IfOk result (λ schema. schema
            ≡ record { of = of; columns = columns.now; numbers = numbers.now }) }
    {
        let mut copy = Vec::new(alloc);
        copy.extend_from_slice(numbers)?;
        Ok(Schema {
            of,
            columns: copies_of(alloc, columns)?,
            numbers: copy,
        })
    }

    /// With the numbers that rows for other programs have where none are named.
    pub fn usual(alloc: Global, of: Of, columns: &[Column]) -> Result<Schema, AllocError>
        ensures { IfOk result (λ schema. schema ≡ usual_schema of columns.now) }
    {
        Schema::new(alloc, of, columns, of.numbers(Audience::Programs))
    }

    pub fn try_clone(&self, alloc: Global) -> Result<Schema, AllocError>
        ensures { IfOk result (λ copy. copy ≡ self.now) }
    {
        Schema::new(alloc, self.of, &self.columns, &self.numbers)
    }
}
