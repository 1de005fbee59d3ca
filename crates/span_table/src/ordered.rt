//! The rows of a table in order.
ghost use Rattle.std.specs.{List.IsDistinct, Ordering.eq_by_cmp, Prelude.{◌≡◌, IfOk}};
ghost use Rattle.span_table.specs.{ascending, Tables.{RowsRise, row_cmp}};

use crate::counts::TableCounts;
use crate::schema::Schema;
use crate::table::{Row, Table};
use std::alloc::{AllocError, Global};
use std::marker::Model;

/// A row of a table, which stands there.
#[derive(Drop)]
pub struct RowRef<'a> {
    row: &'a Row,
}

impl<'a> Model for RowRef<'a> {
    ghost use Rattle.span_table.specs.declared.table.Row.{Row};

    ghost Value = { Row };

    ghost view = { λ r. r.row.now };
}

impl<'a> RowRef<'a> {
    pub fn of(row: &'a Row) -> RowRef<'a>
        ensures { result ≡ row.now }
    {
        RowRef { row }
    }

    pub fn row(&self) -> &'a Row
        ensures { result.now ≡ self.now }
    {
        self.row
    }
}

/// A table with its rows in ascending order of keys.
#[derive(Drop)]
pub struct OrderedTable<'a> {
    table: &'a Table,
    rows: Vec<RowRef<'a>>,
}

impl<'a> Model for OrderedTable<'a> {
    ghost use Rattle.span_table.specs.Tables.{RowsRise, SpanTable};

    ghost Value = { SpanTable };

    ghost view = { λ t. record { schema = t.table.now.schema; counts = t.table.now.counts; rows = t.rows.items } };

    ghost invariant = { λ t. RowsRise t.rows.items };
}

impl<'a> OrderedTable<'a> {
    pub fn of(alloc: Global, table: &'a Table) -> Result<OrderedTable<'a>, AllocError>
        ensures { IfOk result (λ ordered. ordered ≡ table.now) }
    {
        let rows = sorted(refs_of(alloc, table.rows())?);
        Ok(OrderedTable { table, rows })
    }

    pub fn schema(&self) -> &'a Schema
        ensures { result.now ≡ self.now.schema }
    {
        self.table.schema()
    }

    pub fn counts(&self) -> TableCounts
        ensures { result ≡ self.now.counts }
    {
        self.table.counts()
    }

    /// In ascending order of keys.
    pub fn rows(&self) -> &[RowRef<'a>]
        ensures rows { result.now ≡ self.now.rows }
        ensures rise { RowsRise self.now.rows }
    {
        &self.rows
    }
}

/// The rows in ascending order of keys. That takes a comparison for each where they stand so.
pub fn sorted(rows: Vec<RowRef<'_>>) -> Vec<RowRef<'_>>
    requires { IsDistinct (eq_by_cmp row_cmp) rows.items }
    ensures { result.items ≡ ascending row_cmp rows.entry.items }
{
    let mut rows = rows;
    rows.sort_unstable_by(|a, b| a.row.key.cmp(&b.row.key));
    rows
}

fn refs_of(alloc: Global, rows: &[Row]) -> Result<Vec<RowRef<'_>>, AllocError>
    ensures { IfOk result (λ refs. refs.items ≡ rows.now) }
{
    let mut refs = Vec::with_capacity(alloc, rows.len())?;
    for row in rows {
        refs.push(RowRef::of(row))?;
    }
    Ok(refs)
}
