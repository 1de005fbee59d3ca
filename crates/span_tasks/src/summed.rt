//! The schemas by which tables are gathered, and what conditions test.
ghost use Rattle.std.specs.Prelude.{◌≡◌, IfOk};
ghost use Rattle.span_tasks.specs.Summed.{summed_of, tested_in};

use span_narrowing::summed_by;
use span_request::TableOptions;
use span_table::{Audience, Column, Schema};
use std::alloc::{AllocError, Global};

/// That of the table of runs before it is narrowed: the columns that are shown, and behind them those that conditions test.
pub(crate) fn summed_of(alloc: Global, options: &TableOptions) -> Result<Schema, AllocError>
    ensures { IfOk result (λ schema. schema ≡ summed_of options.now) }
{
    let of = options.of;
    Ok(Schema {
        of,
        columns: summed_by(alloc, &options.columns, &options.narrowing)?,
        numbers: options
            .numbers
            .shown(alloc, of, of.numbers(Audience::Programs))?,
    })
}

/// The columns that conditions test.
pub(crate) fn tested_in(alloc: Global, options: &TableOptions) -> Result<Vec<Column>, AllocError>
    ensures { IfOk result (λ columns. columns.items ≡ tested_in options.now) }
{
    summed_by(alloc, &[], &options.narrowing)
}
