//! What options ask a table to sum.
ghost use Rattle.std.specs.Prelude.{◌≡◌, IfOk, MatchResult};
ghost use Rattle.span_request.specs.Asked.{AskNothing, IsAskedBy};

use crate::columns::{columns_asked, rule_of};
use crate::conditions::conditions_of;
use crate::numbers::{NUMBERS_RULE, OF_RULE, numbers_asked, of_of};
use span_narrowing::Condition;
use span_options::Options;
use span_table::{Column, Number, Of};
use std::alloc::{AllocError, Global};
use std::marker::Model;

/// What is summed, by which columns, which numbers are named, and the conditions.
#[derive(Drop)]
pub(crate) struct Summed {
    pub(crate) of: Of,
    pub(crate) columns: Vec<Column>,
    pub(crate) numbers: Vec<Number>,
    pub(crate) conditions: Vec<Condition>,
}

impl Model for Summed {
    ghost use Rattle.span_request.specs.Asked.{Asked};

    ghost Value = { Asked };

    ghost view = { λ s. record { of = s.of; columns = s.columns.items; numbers = s.numbers.items; conditions = s.conditions.items } };
}

/// What the options ask for, or what is said of a word that is not known.
pub(crate) fn summed_by(
    alloc: Global,
    options: &Options,
) -> Result<Result<Summed, &'static str>, AllocError>
    ensures { IfOk result (λ summed. MatchResult summed (IsAskedBy options.now) (λ rule. AskNothing options.now)) }
{
    let Some(of) = of_of(options) else {
        return Ok(Err(OF_RULE));
    };
    let Some(columns) = columns_asked(alloc, options, of)? else {
        return Ok(Err(rule_of(of)));
    };
    let Some(numbers) = numbers_asked(alloc, options)? else {
        return Ok(Err(NUMBERS_RULE));
    };
    match conditions_of(alloc, of, &options.conditions)? {
        Ok(conditions) => Ok(Ok(Summed {
            of,
            columns,
            numbers,
            conditions,
        })),
        Err(rule) => Ok(Err(rule)),
    }
}
