//! Tables of runs, and tables that were printed, added as they come.
ghost use Rattle.std.specs.Prelude.{◌≡◌, ◌+◌, ◌<◌, ◌≤◌, ◌^◌, ◌∷◌, [], map, option_copied, IfOk, IfErr, OnErr, OnOk};
ghost use Rattle.span_table.specs.{Adding.{JoinsRuns, TakesRuns, add_tables, with_counts, with_row, with_run}, Columns.run_of, Kept.rows_with, Tables.{AreRowsOf, RowsRise, row_of, table_of}, declared.table_sum.SumFault.TheVariants.TooMany};

use crate::collected::RunColumns;
use crate::counts::TableCounts;
use crate::groups::Groups;
use crate::merging::merged;
use crate::run::LedgerRun;
use crate::schema::Schema;
use crate::table::{Row, Table};
use span_event::Text;
use span_ledger::Ledger;
use span_names::HashKeys;
use std::alloc::{AllocError, Global};
use std::marker::Model;

// A sum has fewer parts than this, so that no number of it is too great.
const PARTS: u64 = 1 << 32;

/// Why nothing was added. A sum that was handed over is lost.
#[derive(Clone, Copy, Debug, PartialEq, Eq)]
pub enum SumFault {
    /// 31: memory was refused.
    Memory,
    /// There would be 2^32 runs or tables or more.
    TooMany,
}

impl From<AllocError> for SumFault {
    ghost use Rattle.std.specs.Prelude.{◌≡◌};
    ghost use Rattle.span_table.specs.declared.table_sum.SumFault.TheVariants.{Memory};

    ghost from_gives = { λ _ e. e ≡ Memory };

    fn from(_refused: AllocError) -> SumFault {
        SumFault::Memory
    }
}

/// The table of the parts so far, which are runs, or tables of the same schema. What is added costs a look-up for each of
/// its rows, however many there were before.
#[derive(Drop)]
pub struct TableSum {
    schema: Schema,
    counts: TableCounts,
    // Rows in order, and what was added to them since.
    rows: Vec<Row>,
    groups: Groups,
    parts: u64,
}

impl Model for TableSum {
    ghost use Rattle.span_table.specs.{Adding.SummedTable, Kept.{IsSummed, rows_with}};

    ghost Value = { SummedTable };

    ghost view = { λ s. record { parts = s.parts; table = record { schema = s.schema; counts = s.counts; rows = rows_with s.rows.items s.groups } } };

    ghost invariant = { λ s. IsSummed s.parts s.rows.items s.groups };
}

impl TableSum {
    /// The table of no parts. Maps that files fill are hashed by these keys. Takes no memory.
    pub fn new(alloc: Global, keys: HashKeys, schema: Schema) -> TableSum
        ensures table { result.table ≡ table_of schema [] }
        ensures parts { result.parts ≡ 0 }
    {
        TableSum {
            schema,
            counts: TableCounts::of_none(),
            rows: Vec::new(alloc),
            groups: Groups::new(alloc, keys),
            parts: 0,
        }
    }

    pub fn schema(&self) -> &Schema
        ensures { result.now ≡ self.now.table.schema }
    {
        &self.schema
    }

    /// With a run: that of a ledger of so many files, of which so many were refused as a whole, with the name of its file if it has
    /// just one that has a name.
    pub fn add_run(
        self,
        ledger: &Ledger,
        files: u64,
        unread: u64,
        file: Option<&Text>,
    ) -> Result<TableSum, SumFault>
        ensures added { IfOk result (λ sum. sum.table
            ≡ with_run self.table (run_of ledger.now.journal files unread (option_copied file.entry))) }
        ensures runs { IfOk result (TakesRuns self
            (run_of ledger.now.journal files unread (option_copied file.entry) ∷ [])) }
        ensures parts { IfOk result (λ sum. sum.parts ≡ self.parts + 1) }
        ensures few { OnOk result (self.parts + 1 < 2 ^ 32) }
        ensures too_many { IfErr result (λ fault. fault ≡ TooMany → 2 ^ 32 ≤ self.parts + 1) }
    {
        if self.parts + 1 >= PARTS {
            return Err(SumFault::TooMany);
        }
        let run = LedgerRun {
            ledger,
            files,
            unread,
            file,
        };
        Ok(self.with_run(&run)?)
    }

    /// With a run, where it is one of fewer than 2^32 parts.
    pub(crate) fn with_run(self, run: &LedgerRun) -> Result<TableSum, AllocError>
        requires { self.parts + 1 < 2 ^ 32 }
        ensures added { IfOk result (λ sum. sum.table ≡ with_run self.table run.now) }
        ensures parts { IfOk result (λ sum. sum.parts ≡ self.parts + 1) }
    {
        let counts = self.counts.plus(&TableCounts::of(run))?;
        let mut groups = self.groups;
        let by = RunColumns {
            alloc: *self.rows.allocator(),
            run,
            schema: &self.schema,
        };
        by.add_to(&mut groups)?;
        Ok(TableSum {
            counts,
            groups,
            parts: self.parts + 1,
            ..self
        })
    }

    /// With the counts of a table, whose rows are then added. It is one part.
    pub fn add_counts(&mut self, counts: &TableCounts) -> Result<(), SumFault>
        ensures added { OnOk result (self.new.table ≡ with_counts self.old.table counts.now) }
        ensures parts { OnOk result (self.new.parts ≡ self.old.parts + 1) }
        ensures refused { OnErr result (self.new ≡ self.old) }
        ensures too_many { IfErr result (λ fault. fault ≡ TooMany → 2 ^ 32 ≤ self.old.parts + 1) }
    {
        if self.parts + 1 >= PARTS {
            return Err(SumFault::TooMany);
        }
        self.counts = self.counts.plus(counts)?;
        self.parts += 1;
        Ok(())
    }

    /// Adds a row of a table. One that is refused changes nothing.
    pub fn add_row(&mut self, row: &Row) -> Result<(), AllocError>
        ensures added { OnOk result (self.new.table ≡ with_row self.old.table row.now) }
        ensures parts { self.new.parts ≡ self.old.parts }
        ensures refused { OnErr result (self.new ≡ self.old) }
    {
        self.groups.add_copy(&row.key, &row.sums)?;
        Ok(())
    }

    /// The same sum, its rows put in order. To join such a sum with another takes no look-up and no sorting.
    pub fn in_order(self) -> Result<TableSum, AllocError>
        ensures { IfOk result (λ sum. sum ≡ self) }
    {
        let groups = self.groups.none_beside();
        let rows = all_in_order(self.rows, self.groups)?;
        Ok(TableSum {
            rows,
            groups,
            ..self
        })
    }

    /// With the parts of another sum of the same schema. One that was put in order is merged, which costs a comparison for each row; the rows
    /// of another are looked up.
    pub fn join(self, other: TableSum) -> Result<TableSum, SumFault>
        ensures added { IfOk result (λ sum. sum.table
            ≡ add_tables self.table.schema (self.table ∷ other.table ∷ [])) }
        ensures runs { IfOk result (JoinsRuns self other) }
        ensures parts { IfOk result (λ sum. sum.parts ≡ self.parts + other.parts) }
        ensures few { OnOk result (self.parts + other.parts < 2 ^ 32) }
        ensures too_many { IfErr result (λ fault. fault ≡ TooMany
            → 2 ^ 32 ≤ self.parts + other.parts) }
    {
        if self.parts + other.parts >= PARTS {
            return Err(SumFault::TooMany);
        }
        let counts = self.counts.plus(&other.counts)?;
        let parts = self.parts + other.parts;
        if other.rows.is_empty() {
            let mut groups = self.groups;
            groups.add_all(other.groups)?;
            return Ok(TableSum {
                counts,
                groups,
                parts,
                ..self
            });
        }
        let groups = self.groups.none_beside();
        let rows = all_in_order(self.rows, self.groups)?;
        let more = all_in_order(other.rows, other.groups)?;
        Ok(TableSum {
            counts,
            rows: merged(rows, more)?,
            groups,
            parts,
            ..self
        })
    }

    /// The table.
    pub fn into_table(self) -> Result<Table, AllocError>
        ensures { IfOk result (λ table. table ≡ self.table) }
    {
        Ok(Table {
            schema: self.schema,
            counts: self.counts,
            rows: all_mixed(self.rows, self.groups)?,
        })
    }
}

// Rows in order and what was added to them since, in whatever order.
fn all_mixed(rows: Vec<Row>, groups: Groups) -> Result<Vec<Row>, AllocError>
    requires rise { RowsRise rows.items }
    requires kept { RowsRise (map row_of groups) }
    ensures { IfOk result (λ all. AreRowsOf (rows_with rows.items groups) all.items) }
{
    if rows.is_empty() {
        let rows = groups.into_mixed()?;
        return Ok(rows);
    }
    let rows = all_in_order(rows, groups)?;
    Ok(rows)
}

// Rows in order, with what was added to them since.
fn all_in_order(rows: Vec<Row>, groups: Groups) -> Result<Vec<Row>, AllocError>
    requires rise { RowsRise rows.items }
    ensures rows { IfOk result (λ all. all.items ≡ rows_with rows.items groups) }
    ensures rise { IfOk result (λ all. RowsRise all.items) }
{
    merged(rows, groups.into_rows()?)
}
