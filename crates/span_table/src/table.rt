//! A table of spans.
ghost use Rattle.std.specs.Prelude.{◌≡◌, ◌∷◌, [], length, option_copied, IfOk};
ghost use Rattle.span_table.specs.{Columns.run_of, Tables.{AreRowsOf, table_of}};

use crate::counts::TableCounts;
use crate::groups::in_order;
use crate::key::Key;
use crate::run::LedgerRun;
use crate::schema::Schema;
use crate::sums::Sums;
use crate::table_sum::TableSum;
use span_event::Text;
use span_ledger::Ledger;
use span_names::HashKeys;
use std::alloc::{AllocError, Global};
use std::marker::Model;

/// What one key has.
#[derive(Drop)]
pub struct Row {
    pub key: Key,
    pub sums: Sums,
}

/// Spans summed by columns: a row for each key that a span has. A contract sees them in ascending order of keys, but they are kept in
/// whatever order, since to put many in order takes longer than to look at each.
#[derive(Drop)]
pub struct Table {
    pub(crate) schema: Schema,
    pub(crate) counts: TableCounts,
    pub(crate) rows: Vec<Row>,
}

impl Model for Table {
    ghost use Rattle.std.specs.{List.IsDistinct, Ordering.eq_by_cmp};
    ghost use Rattle.span_table.specs.{ascending, Tables.{SpanTable, row_cmp}};

    ghost Value = { SpanTable };

    ghost view = { λ t. record { schema = t.schema; counts = t.counts; rows = ascending row_cmp t.rows.items } };

    ghost invariant = { λ t. IsDistinct (eq_by_cmp row_cmp) t.rows.items };
}

impl Table {
    /// The table of one run: that of a ledger of so many files, of which so many were refused as a whole, with the name of its file if
    /// it has just one that has a name. Maps that a file fills are hashed by these keys.
    pub fn of(
        alloc: Global,
        keys: HashKeys,
        schema: Schema,
        ledger: &Ledger,
        files: u64,
        unread: u64,
        file: Option<&Text>,
    ) -> Result<Table, AllocError>
        ensures { IfOk result (λ table. table ≡ table_of schema
            (run_of ledger.now.journal files unread (option_copied file.entry) ∷ [])) }
    {
        let run = LedgerRun {
            ledger,
            files,
            unread,
            file,
        };
        TableSum::new(alloc, keys, schema)
            .with_run(&run)?
            .into_table()
    }

    pub fn schema(&self) -> &Schema
        ensures { result.now ≡ self.now.schema }
    {
        &self.schema
    }

    pub fn counts(&self) -> TableCounts
        ensures { result ≡ self.now.counts }
    {
        self.counts
    }

    /// In whatever order.
    pub fn rows(&self) -> &[Row]
        ensures { AreRowsOf self.now.rows result.now }
    {
        &self.rows
    }

    /// The same, its rows kept in order. Then it takes a comparison for each to put them in order again.
    pub fn in_order(self) -> Table
        ensures { result ≡ self }
    {
        let rows = in_order(self.rows);
        Table { rows, ..self }
    }

    /// How many rows there are.
    pub fn len(&self) -> usize
        ensures { result ≡ length self.now.rows }
    {
        self.rows.len()
    }
}
