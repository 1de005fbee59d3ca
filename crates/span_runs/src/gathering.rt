//! What the runs of files come to, as they are collected one by one: one table of all, a table of each, or the stacks of all.
ghost use Rattle.std.specs.Prelude.{◌≡◌, ◌+◌, ◌≤◌, ◌^◌, ◌++◌, [], List, length, IfErr, IfOk};
ghost use Rattle.span_runs.specs.{Run, TooMany, Apart.run_of, Gathering.TakesAlike};

use crate::file_run::FileRun;
use span_names::HashKeys;
use span_report::stacks::SpanColumn;
use span_stack_sums::StackSum;
use span_table::{Schema, SumFault, Table, TableSum};
use std::alloc::{AllocError, Global};

/// What the runs of files come to. A fault loses what was handed over.
pub trait Gathering: Sized + Drop + Send {
    /// By what runs are summed.
    type By: Drop + Sync;

    ghost come_to: { Self.By → List Run → Self → Type 0 };

    /// What no runs come to. Maps that files fill are hashed by these keys.
    fn of_none(alloc: Global, keys: HashKeys, by: &Self::By) -> Result<Self, AllocError>
        ensures { IfOk result (come_to by.now []) };

    /// With one run more, or any that is alike.
    fn with_run(
        self,
        alloc: Global,
        keys: HashKeys,
        by: &Self::By,
        run: &FileRun,
    ) -> Result<Self, SumFault>
        ensures runs { IfOk result (λ more.
            TakesAlike (come_to by.now) self (run_of run.now) more) }
        ensures too_many { IfErr result (λ fault. fault ≡ TooMany → (runs : List Run)
            → come_to by.now runs self → 2 ^ 32 ≤ length runs + 1) };

    /// The same, made ready to be joined with another.
    fn in_order(self) -> Result<Self, AllocError>
        ensures { IfOk result (λ same. same ≡ self) }
    {
        Ok(self)
    }

    /// With the runs of another, which come after these.
    fn joined(self, other: Self) -> Result<Self, SumFault>
        ensures runs { IfOk result (λ both.
            (by : Self.By) (runs others : List Run)
            → come_to by runs self → come_to by others other
            → come_to by (runs ++ others) both) }
        ensures too_many { IfErr result (λ fault. fault ≡ TooMany
            → (by : Self.By) (runs others : List Run)
            → come_to by runs self → come_to by others other
            → 2 ^ 32 ≤ length runs + length others) };
}

/// One table of all.
impl Gathering for TableSum {
    ghost use Rattle.span_runs.specs.{IsSumOf};

    type By = Schema;

    ghost come_to = { IsSumOf };

    fn of_none(alloc: Global, keys: HashKeys, schema: &Schema) -> Result<TableSum, AllocError> {
        Ok(TableSum::new(alloc, keys, schema.try_clone(alloc)?))
    }

    fn with_run(
        self,
        _alloc: Global,
        _keys: HashKeys,
        _schema: &Schema,
        run: &FileRun,
    ) -> Result<TableSum, SumFault> {
        let collected = &run.collected;
        self.add_run(
            &collected.ledger,
            1,
            collected.end.unread(),
            Some(&run.label),
        )
    }

    fn in_order(self) -> Result<TableSum, AllocError> {
        self.in_order()
    }

    fn joined(self, other: TableSum) -> Result<TableSum, SumFault> {
        self.join(other)
    }
}

/// A table of each, in their order. The rows of each are put in order at once, since other jobs do so with theirs.
impl Gathering for Vec<Table> {
    ghost use Rattle.span_runs.specs.Gathering.{AreTablesOf};

    type By = Schema;

    ghost come_to = { λ schema runs tables. AreTablesOf schema runs tables.items };

    fn of_none(alloc: Global, _keys: HashKeys, _schema: &Schema) -> Result<Vec<Table>, AllocError> {
        Ok(Vec::new(alloc))
    }

    fn with_run(
        self,
        alloc: Global,
        keys: HashKeys,
        schema: &Schema,
        run: &FileRun,
    ) -> Result<Vec<Table>, SumFault> {
        let collected = &run.collected;
        let Ok(schema) = schema.try_clone(alloc) else {
            return Err(SumFault::Memory);
        };
        let Ok(table) = Table::of(
            alloc,
            keys,
            schema,
            &collected.ledger,
            1,
            collected.end.unread(),
            Some(&run.label),
        ) else {
            return Err(SumFault::Memory);
        };
        let mut tables = self;
        match tables.push(table.in_order()) {
            Ok(()) => Ok(tables),
            Err(_) => Err(SumFault::Memory),
        }
    }

    fn joined(self, other: Vec<Table>) -> Result<Vec<Table>, SumFault> {
        let (mut tables, mut more) = (self, other);
        match tables.append(&mut more) {
            Ok(()) => Ok(tables),
            Err(_) => Err(SumFault::Memory),
        }
    }
}

/// The stacks of all, whose frames are labels by some columns.
impl Gathering for StackSum {
    ghost use Rattle.span_runs.specs.{IsStackSum};

    type By = Vec<SpanColumn>;

    ghost come_to = { λ columns. IsStackSum columns.items };

    fn of_none(
        alloc: Global,
        keys: HashKeys,
        _columns: &Vec<SpanColumn>,
    ) -> Result<StackSum, AllocError> {
        Ok(StackSum::new(alloc, keys))
    }

    fn with_run(
        self,
        alloc: Global,
        _keys: HashKeys,
        columns: &Vec<SpanColumn>,
        run: &FileRun,
    ) -> Result<StackSum, SumFault> {
        self.add_run(alloc, &run.collected.ledger, columns)
    }

    fn in_order(self) -> Result<StackSum, AllocError> {
        self.in_order()
    }

    fn joined(self, other: StackSum) -> Result<StackSum, SumFault> {
        self.join(other)
    }
}
