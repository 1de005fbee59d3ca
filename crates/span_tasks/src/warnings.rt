//! What is warned of behind tables: files of which events were refused, and columns that no span has.
ghost use Rattle.std.specs.{List.list_any, Prelude.{◌≡◌, ◌++◌, ◌∷◌, [], string_bytes, IfOk, OnOk}};
ghost use Rattle.span_tasks.specs.{warning_lines, Warnings.{absent_from, absent_line, absent_lines, has_column, has_rows, has_value, is_absent, warned_of}};

use span_faults::warning_lines;
use span_report::json_text;
use span_request::{Items, PageView};
use span_runs::Warning;
use span_table::{Column, Row, Table};
use std::alloc::{AllocError, Global};
use std::slice::from_ref;

/// Tables by the same columns: some, and more behind them.
#[derive(Clone, Copy)]
pub(crate) struct Tabled<'a> {
    pub(crate) columns: &'a [Column],
    pub(crate) tables: &'a [Table],
    pub(crate) more: &'a [Table],
}

impl<'a> Tabled<'a> {
    /// What is warned of these tables of such items, and of the files of which they are. Of printed ones nothing is.
    pub(crate) fn warned(
        self,
        alloc: Global,
        items: Items,
        warnings: &[Warning],
    ) -> Result<Vec<u8>, AllocError>
        ensures { IfOk result (λ warned. warned.items ≡ warned_of items self.entry.columns.now
            (self.entry.tables.now ++ self.entry.more.now) warnings.now) }
    {
        if let Items::Printed = items {
            return Ok(Vec::new(alloc));
        }
        let mut warned = warning_lines(alloc, warnings)?;
        self.put_absent(alloc, &mut warned)?;
        Ok(warned.into_bytes())
    }

    /// The lines of columns that are arguments and that no span has, if there is a row.
    pub(crate) fn put_absent(self, alloc: Global, out: &mut String) -> Result<(), AllocError>
        ensures { OnOk result (string_bytes out.new ≡ string_bytes out.old
            ++ absent_lines self.entry.columns.now (self.entry.tables.now ++ self.entry.more.now)) }
    {
        if !self.have_rows() {
            return Ok(());
        }
        for (place, column) in self.columns.iter().enumerate() {
            if self.lacks(place, column) {
                put_column(alloc, out, column)?;
            }
        }
        Ok(())
    }

    fn have_rows(self) -> bool
        ensures { result ≡ list_any has_rows (self.entry.tables.now ++ self.entry.more.now) }
    {
        any_has_rows(self.tables) || any_has_rows(self.more)
    }

    // Whether the column at this place is an argument that no row has.
    fn lacks(self, place: usize, column: &Column) -> bool
        ensures { result ≡ is_absent place column.now (self.entry.tables.now ++ self.entry.more.now) }
    {
        matches!(column, Column::Argument(_) | Column::ParentArgument(_))
            && !any_has_column(self.tables, place)
            && !any_has_column(self.more, place)
    }
}

/// What is warned of behind a page with this table: these files, and columns of the table.
pub(crate) fn warned_of_page(
    alloc: Global,
    view: &PageView,
    table: &Table,
    warnings: &[Warning],
) -> Result<Vec<u8>, AllocError>
    ensures { IfOk result (λ warned. warned.items ≡ warning_lines warnings.now
        ++ absent_lines view.now.options.columns.items (table.now ∷ [])) }
{
    let mut warned = warning_lines(alloc, warnings)?;
    let tabled = Tabled {
        columns: &view.options.columns,
        tables: from_ref(table),
        more: &[],
    };
    tabled.put_absent(alloc, &mut warned)?;
    Ok(warned.into_bytes())
}

fn any_has_rows(tables: &[Table]) -> bool
    ensures { result ≡ list_any has_rows tables.now }
{
    tables.iter().any(|table| table.len() > 0)
}

fn any_has_column(tables: &[Table], place: usize) -> bool
    ensures { result ≡ list_any (has_column place) tables.now }
{
    tables.iter().any(|table| table_has(table, place))
}

// Whether the column has a value in some row of the table.
fn table_has(table: &Table, place: usize) -> bool
    ensures { result ≡ has_column place table.now }
{
    has_column(table.rows(), place)
}

fn has_column(rows: &[Row], place: usize) -> bool
    ensures { result ≡ list_any (has_value place) rows.now }
{
    rows.iter().any(|row| has_value(row, place))
}

fn has_value(row: &Row, place: usize) -> bool
    ensures { result ≡ has_value place row.now }
{
    matches!(row.key.values().get(place), Some(Some(_)))
}

fn put_column(alloc: Global, out: &mut String, column: &Column) -> Result<(), AllocError>
    ensures { OnOk result (string_bytes out.new ≡ string_bytes out.old ++ absent_line column.now) }
{
    let name = column.name(alloc)?;
    let name = json_text(alloc, &name)?;
    writeln!(out, "tracebook: warning: no span has {name}")
}
