//! The stacks of runs, added as they come.
ghost use Rattle.std.specs.Prelude.{◌≡◌, ◌+◌, ◌<◌, ◌≤◌, ◌^◌, IfErr, IfOk};
ghost use Rattle.span_stack_sums.specs.{KeyedSums, TooLarge, TooMany, most_names, rows_of, Stacks.{IsEmpty, JoinsSums, Stands, TakesJournal}, Text.{IsTextOf, labels_in}};

use crate::stack_rows::StackRows;
use crate::text::{check_labels, text_of};
use crate::threads::add_threads;
use span_ledger::Ledger;
use span_names::HashKeys;
use span_report::stacks::{SpanColumn, StacksFault};
use span_table::{Row, SumFault};
use std::alloc::{AllocError, Global};
use std::marker::Model;

// A sum has fewer runs than this, so that no number of it is too great.
const RUNS: u64 = 1 << 32;

/// The stacks of the runs so far: how many ticks have each, under the names of its process and its thread. They are the rows of a
/// table, which is by no columns.
#[derive(Drop)]
pub struct StackSum {
    // None where they have more labels than they may.
    rows: Option<StackRows>,
    parts: u64,
}

impl Model for StackSum {
    ghost use Rattle.std.specs.Prelude.{◌<◌, ◌^◌};
    ghost use Rattle.span_stack_sums.specs.Stacks.{SummedStacks};

    ghost Value = { SummedStacks };

    ghost view = { λ s. record { rows = s.rows; parts = s.parts } };

    ghost invariant = { λ s. s.parts < 2 ^ 32 };
}

impl StackSum {
    /// The stacks of no runs. Maps that files fill are hashed by these keys. Takes no memory.
    pub fn new(alloc: Global, keys: HashKeys) -> StackSum
        ensures { IsEmpty result }
    {
        StackSum {
            rows: Some(StackRows::new(alloc, keys)),
            parts: 0,
        }
    }

    /// With those of a run, whose frames are labels by these columns. Where they have too many labels then, none is kept.
    pub fn add_run(
        self,
        alloc: Global,
        ledger: &Ledger,
        columns: &[SpanColumn],
    ) -> Result<StackSum, SumFault>
        ensures added { IfOk result (TakesJournal columns.now ledger.now.journal self) }
        ensures too_many { IfErr result (λ fault. fault ≡ TooMany → 2 ^ 32 ≤ self.parts + 1) }
    {
        let StackSum { rows, parts } = self;
        let parts = parts + 1;
        if parts >= RUNS {
            return Err(SumFault::TooMany);
        }
        let Some(mut rows) = rows else {
            return Ok(StackSum { rows: None, parts });
        };
        match add_threads(alloc, &mut rows, ledger, columns) {
            Ok(()) => Ok(StackSum {
                rows: Some(rows),
                parts,
            }),
            Err(StacksFault::TooLarge) => Ok(StackSum { rows: None, parts }),
            Err(StacksFault::Memory) => Err(SumFault::Memory),
        }
    }

    /// The same, made ready to be joined with others.
    pub fn in_order(self) -> Result<StackSum, AllocError>
        ensures { IfOk result (λ sum. sum ≡ self) }
    {
        let StackSum { rows, parts } = self;
        let Some(rows) = rows else {
            return Ok(StackSum { rows: None, parts });
        };
        Ok(StackSum {
            rows: Some(rows.in_order()?),
            parts,
        })
    }

    /// With those of other runs.
    pub fn join(self, other: StackSum) -> Result<StackSum, SumFault>
        ensures added { IfOk result (JoinsSums self other) }
        ensures too_many { IfErr result (λ fault. fault ≡ TooMany
            → 2 ^ 32 ≤ self.parts + other.parts) }
    {
        let parts = self.parts + other.parts;
        if parts >= RUNS {
            return Err(SumFault::TooMany);
        }
        let (StackSum { rows: mine, .. }, StackSum { rows: its, .. }) = (self, other);
        let Some(mine) = mine else {
            return Ok(StackSum { rows: None, parts });
        };
        let Some(its) = its else {
            return Ok(StackSum { rows: None, parts });
        };
        Ok(StackSum {
            rows: Some(mine.join(its)?),
            parts,
        })
    }

    /// Each stack once, in order. None are given where they have more labels than the stacks of one run may have.
    pub fn into_rows(self) -> Result<Vec<Row>, StacksFault>
        ensures rows { IfOk result (λ rows. (sums : KeyedSums) → Stands self.rows sums
            → rows.items ≡ rows_of sums) }
        ensures few { IfOk result (λ rows. labels_in rows.items ≤ most_names) }
        ensures full { IfErr result (λ fault. fault ≡ TooLarge → (sums : KeyedSums)
            → Stands self.rows sums → most_names < labels_in (rows_of sums)) }
    {
        let Some(rows) = self.rows else {
            return Err(StacksFault::TooLarge);
        };
        let rows = rows.into_rows()?;
        check_labels(&rows)?;
        Ok(rows)
    }

    /// A line for each stack, in order: its frames, and how many ticks have it. None where they have more labels than the stacks of one
    /// run may have.
    pub fn into_text(self, alloc: Global) -> Result<Vec<u8>, StacksFault>
        ensures text { IfOk result (λ text. (sums : KeyedSums) → Stands self.rows sums
            → IsTextOf (rows_of sums) text.items) }
        ensures full { IfErr result (λ fault. fault ≡ TooLarge → (sums : KeyedSums)
            → Stands self.rows sums → most_names < labels_in (rows_of sums)) }
    {
        let rows = self.into_rows()?;
        Ok(text_of(alloc, &rows)?)
    }
}
