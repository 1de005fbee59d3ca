//! The rows of stacks, as they are kept.
ghost use Rattle.std.specs.Prelude.{◌≡◌, ◌++◌, ◌∷◌, ◌<◌, [], IfOk, IsTrue, OnOk};
ghost use Rattle.span_stack_sums.specs.{RowsRise, keyed_rows, most_names, rows_of, Kept.TakesSums, Stacks.ticks_alone, Text.labels_in};

use crate::text::{MOST_LABELS, labels_of};
use span_names::HashKeys;
use span_table::{Groups, Key, Number, Row, Sums, merged};
use std::alloc::{AllocError, Global};
use std::marker::Model;

/// Stacks, and how many ticks have each: rows in order, and what was added to them since.
#[derive(Drop)]
pub(crate) struct StackRows {
    rows: Vec<Row>,
    groups: Groups,
    // How many labels the groups have, or fewer: it begins anew where they are put in order.
    labels: u64,
}

impl Model for StackRows {
    ghost use Rattle.std.specs.Prelude.{List};
    ghost use Rattle.span_stack_sums.specs.{Row, rows_with, Kept.IsKept};

    ghost Value = { List Row };

    ghost view = { λ s. rows_with s.rows.items s.groups };

    ghost invariant = { λ s. IsKept s.rows.items s.groups s.labels };
}

impl StackRows {
    /// No stacks. Takes no memory.
    pub(crate) fn new(alloc: Global, keys: HashKeys) -> StackRows
        ensures { result ≡ [] }
    {
        StackRows {
            rows: Vec::new(alloc),
            groups: Groups::new(alloc, keys),
            labels: 0,
        }
    }

    /// Adds so many ticks to a stack.
    pub(crate) fn put(&mut self, key: Key, time: u64) -> Result<(), AllocError>
        ensures { OnOk result (TakesSums self.old self.new
            (record { key = key; step = ticks_alone time } ∷ [])) }
    {
        let labels = labels_of(&key) as u64;
        if self.groups.put(key, ticks(time))? {
            self.labels = self.labels.saturating_add(labels);
        }
        Ok(())
    }

    /// Whether they are known to have more labels than they may.
    pub(crate) fn are_full(&self) -> bool
        ensures { IsTrue result → most_names < labels_in self.now }
    {
        self.labels > MOST_LABELS
    }

    /// All in order.
    pub(crate) fn into_rows(self) -> Result<Vec<Row>, AllocError>
        ensures rows { IfOk result (λ rows. rows.items ≡ self) }
        ensures rise { IfOk result (λ rows. RowsRise rows.items) }
    {
        merged(self.rows, self.groups.into_rows()?)
    }

    /// The same, put in order. To join such stacks with others takes no look-up and no sorting.
    pub(crate) fn in_order(self) -> Result<StackRows, AllocError>
        ensures { IfOk result (λ same. same ≡ self) }
    {
        let groups = self.groups.none_beside();
        Ok(StackRows {
            rows: self.into_rows()?,
            groups,
            labels: 0,
        })
    }

    /// With others, added.
    pub(crate) fn join(self, other: StackRows) -> Result<StackRows, AllocError>
        ensures { IfOk result (λ both. both ≡ rows_of (keyed_rows self ++ keyed_rows other)) }
    {
        let groups = self.groups.none_beside();
        Ok(StackRows {
            rows: merged(self.into_rows()?, other.into_rows()?)?,
            groups,
            labels: 0,
        })
    }
}

// So many ticks, and no other number.
fn ticks(time: u64) -> Sums
    ensures { result ≡ ticks_alone time }
{
    let mut sums = Sums::of_none();
    sums.put(Number::Total, u128::from(time));
    sums
}
