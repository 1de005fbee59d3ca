//! Tables that are narrowed.
ghost use Rattle.std.specs.Prelude.{◌≡◌, [], IfOk};
ghost use Rattle.span_narrowing.specs.Narrowed.{is_plain, narrowed, shown_schema, shown_with, summed_by};

use crate::conditions::Condition;
use crate::keys::narrowed_key;
use span_names::HashKeys;
use span_table::{Column, Row, Schema, SumFault, Table, TableSum, copies_of};
use std::alloc::{AllocError, Global};

/// How a table is narrowed.
#[derive(Drop)]
pub struct Narrowing {
    /// Each is on a column of the table of its own: the last columns, in their order. They are not shown.
    pub conditions: Vec<Condition>,
    /// Templates are merged in names and arguments, before conditions are looked at.
    pub merges: bool,
}

impl Narrowing {
    fn is_plain(&self) -> bool
        ensures { result ≡ is_plain self.now }
    {
        self.conditions.is_empty() && !self.merges
    }

    /// The schema of a table of this one once it is narrowed: without the columns that conditions test.
    pub fn shown_schema(&self, alloc: Global, schema: &Schema) -> Result<Schema, AllocError>
        ensures { IfOk result (λ shown. shown ≡ shown_schema self.now schema.now) }
    {
        let columns = schema.columns.as_slice();
        let shown = columns.len().saturating_sub(self.conditions.len());
        Schema::new(alloc, schema.of, &columns[..shown], &schema.numbers)
    }
}

/// The columns of a table that is to be narrowed: those that are shown, and behind them that of each condition, whether it is among them
/// or not.
pub fn summed_by(
    alloc: Global,
    columns: &[Column],
    narrowing: &Narrowing,
) -> Result<Vec<Column>, AllocError>
    ensures { IfOk result (λ all. all.items ≡ summed_by columns.now narrowing.now) }
{
    let mut all = copies_of(alloc, columns)?;
    for condition in &narrowing.conditions {
        all.push(condition.column.try_clone(alloc)?)?;
    }
    Ok(all)
}

/// The table with merged templates, with only the rows of which all conditions hold, and without the conditions' columns; rows whose keys
/// are then the same are added. Maps that files fill are hashed by these keys.
pub fn narrowed(
    alloc: Global,
    keys: HashKeys,
    narrowing: &Narrowing,
    table: Table,
) -> Result<Table, AllocError>
    ensures { IfOk result (λ made. made ≡ narrowed narrowing.now table) }
{
    let rows = table.rows();
    if narrowing.is_plain() {
        return Ok(table);
    }
    let schema = table.schema();
    let mut sum = begun(alloc, keys, narrowing, &table)?;
    for row in rows {
        if let Some(key) = narrowed_key(alloc, narrowing, &schema.columns, &row.key)? {
            let sums = row.sums;
            sum.add_row(&Row { key, sums })?;
        }
    }
    sum.into_table()
}

// What the table sums, by the columns that are shown, with its counts and none of its rows.
fn begun(
    alloc: Global,
    keys: HashKeys,
    narrowing: &Narrowing,
    table: &Table,
) -> Result<TableSum, AllocError>
    ensures { IfOk result (λ sum. sum.table ≡ shown_with narrowing.now table.now []) }
{
    let schema = narrowing.shown_schema(alloc, table.schema())?;
    let mut sum = TableSum::new(alloc, keys, schema);
    match sum.add_counts(&table.counts()) {
        Ok(()) => Ok(sum),
        Err(SumFault::Memory) => Err(AllocError),
        // It is the first of its parts.
        Err(SumFault::TooMany) => unreachable!(),
    }
}
