//! A side of repeated runs: a table for each repetition.
ghost use Rattle.std.specs.Prelude.{◌≡◌, ◌≤◌, map, length, OnOk, IfOk};
ghost use Rattle.span_comparisons.specs.{Repeats.side_counts, Spreads.{spread_of, values_at}};

use crate::spreads::Spread;
use span_table::{Key, Number, OrderedTable, TableCounts, sums_at};
use std::alloc::{AllocError, Global};
use std::marker::Model;

/// The tables of a side, with the values of the key that was looked up last.
#[derive(Drop)]
pub(crate) struct Side<'s, 't> {
    tables: &'s [OrderedTable<'t>],
    // Where the next key is looked for in each table.
    places: Vec<usize>,
    values: Vec<u128>,
}

impl<'s, 't> Model for Side<'s, 't> {
    ghost use Rattle.std.specs.Prelude.{◌≡◌, length};
    ghost use Rattle.span_comparisons.specs.Sides.{SideValues};

    ghost Value = { SideValues };

    ghost view = { λ s. record { tables = s.tables.now; values = s.values.items } };

    ghost invariant = { λ s. length s.places.items ≡ length s.tables.now };
}

impl<'s, 't> Side<'s, 't> {
    pub(crate) fn of(
        alloc: Global,
        tables: &'s [OrderedTable<'t>],
    ) -> Result<Side<'s, 't>, AllocError>
        ensures { IfOk result (λ side. side.tables ≡ tables.now) }
    {
        Ok(Side {
            tables,
            places: vec![in alloc; 0; tables.len()]?,
            values: Vec::new(alloc),
        })
    }

    /// Finds the values of a key, in the order of the tables.
    pub(crate) fn look_up(&mut self, key: &Key, by: Number) -> Result<(), AllocError>
        ensures tables { self.new.tables ≡ self.old.tables }
        ensures values { OnOk result (self.new.values ≡ values_at by self.old.tables key.now) }
    {
        self.values.clear();
        for i in 0..self.tables.len() {
            let sums = sums_at(self.tables[i].rows(), &mut self.places[i], key);
            self.values.push(sums.by(by))?;
        }
        Ok(())
    }

    /// Those that were found last, in this order until they are spread.
    pub(crate) fn values(&self) -> &[u128]
        ensures { result.now ≡ self.now.values }
    {
        &self.values
    }

    /// How they are spread. They are put in order.
    pub(crate) fn spread(&mut self) -> Spread
        ensures tables { self.new.tables ≡ self.old.tables }
        ensures value { result ≡ spread_of self.old.values }
        ensures order { result.least ≤ result.greatest }
    {
        Spread::of(&mut self.values)
    }
}

/// The counts of a side's tables added.
pub(crate) fn side_counts(tables: &[OrderedTable]) -> Result<TableCounts, AllocError>
    ensures { IfOk result (λ counts. counts ≡ side_counts tables.now) }
{
    let mut counts = TableCounts::of_none();
    for table in tables {
        counts = counts.plus(&table.counts())?;
    }
    Ok(counts)
}
