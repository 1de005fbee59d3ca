//! The totals of the names of a thread's closed spans.
ghost use Rattle.std.specs.{Map.keys_of, Prelude.{◌≡◌, ◌+◌, ◌<◌, ◌^◌, ◌==◌, ℕ, [], ◌∷◌, nat_eq, if◌then◌else◌, length, slice_get, OnOk, IfOk}};
ghost use Rattle.indexmap.specs.{IndexMap.{spare, keys}, IndexSet.insert_key};
ghost use Rattle.span_closed_spans.specs.{Totals.total_in, TotalsKept.{entries_of, HasRoom}};

use indexmap::IndexMap;
use std::alloc::{AllocError, Global};

/// The closed spans of one name: how many there are, and their lengths together, in ticks.
#[derive(Clone, Copy, Debug, PartialEq, Eq)]
pub struct NameTotal {
    pub count: u32,
    pub total: u128,
}

impl NameTotal {
    fn of_none() -> NameTotal
        ensures { result ≡ record { count = 0; total = 0 } }
    {
        NameTotal { count: 0, total: 0 }
    }

    fn of_one(length: u64) -> NameTotal
        ensures { result ≡ record { count = 1; total = length } }
    {
        NameTotal {
            count: 1,
            total: u128::from(length),
        }
    }
}

/// A total for each name, in the order in which the names came. That of a single span takes no memory of its own.
#[derive(Drop)]
pub(crate) enum NameTotals {
    Empty,
    Single { name: u32, length: u64 },
    Many(Box<IndexMap<u32, NameTotal>>),
}

impl NameTotals {
    /// How many names there are.
    pub(crate) fn count(&self) -> usize
        ensures { result ≡ length (entries_of self.now) }
    {
        match self {
            NameTotals::Empty => 0,
            NameTotals::Single { .. } => 1,
            NameTotals::Many(totals) => totals.len(),
        }
    }

    /// A name, counted from 0.
    pub(crate) fn name(&self, i: usize) -> Option<u32>
        ensures { result ≡ slice_get (keys_of (entries_of self.now)) i }
    {
        match self {
            NameTotals::Single { name, .. } if i == 0 => Some(*name),
            NameTotals::Many(totals) => match totals.get_index(i) {
                Some((name, _)) => Some(*name),
                None => None,
            },
            _ => None,
        }
    }

    /// The total of a name; zeros where it has none.
    pub(crate) fn of(&self, name: u32) -> NameTotal
        ensures { result ≡ total_in (entries_of self.now) name }
    {
        match self {
            NameTotals::Single { name: only, length } if *only == name => NameTotal::of_one(
                *length,
            ),
            NameTotals::Many(totals) => match totals.get(&name) {
                Some(total) => *total,
                None => NameTotal::of_none(),
            },
            _ => NameTotal::of_none(),
        }
    }

    /// Makes room for one more name: a second span makes a map.
    pub(crate) fn reserve(&mut self, alloc: Global) -> Result<(), AllocError>
        ensures entries { entries_of self.new ≡ entries_of self.old }
        ensures room { OnOk result (HasRoom self.new) }
    {
        match self {
            NameTotals::Empty => Ok(()),
            NameTotals::Single { name, length } => {
                *self = NameTotals::Many(map_of(*name, *length, alloc)?);
                Ok(())
            }
            NameTotals::Many(totals) => totals.reserve(1),
        }
    }

    /// One more span of this name.
    pub(crate) fn add_span(&mut self, name: u32, length: u64)
        requires room { HasRoom self.old }
        requires count { (total_in (entries_of self.old) name).count + 1 < 2 ^ 32 }
        requires total { (total_in (entries_of self.old) name).total + length < 2 ^ 128 }
        ensures names { keys_of (entries_of self.new)
            ≡ insert_key nat_eq (keys_of (entries_of self.old)) name }
        ensures each { (other : ℕ) → total_in (entries_of self.new) other ≡ (if name == other
            then record {
              count = (total_in (entries_of self.old) name).count + 1;
              total = (total_in (entries_of self.old) name).total + length;
            }
            else total_in (entries_of self.old) other) }
    {
        match self {
            NameTotals::Empty => *self = NameTotals::Single { name, length },
            NameTotals::Single { .. } => unreachable!(),
            NameTotals::Many(totals) => add_to_total(totals, name, length),
        }
    }

    /// A copy.
    pub(crate) fn try_clone(&self, alloc: Global) -> Result<NameTotals, AllocError>
        ensures { IfOk result (λ copy. entries_of copy ≡ entries_of self.now) }
    {
        match self {
            NameTotals::Empty => Ok(NameTotals::Empty),
            NameTotals::Single { name, length } => Ok(NameTotals::Single {
                name: *name,
                length: *length,
            }),
            NameTotals::Many(totals) => {
                let copy = IndexMap::clone(totals)?;
                Ok(NameTotals::Many(Box::new(alloc, copy)?))
            }
        }
    }
}

// The total of a single span in a map, with room for one more name.
fn map_of(
    name: u32,
    length: u64,
    alloc: Global,
) -> Result<Box<IndexMap<u32, NameTotal>>, AllocError>
    ensures entries { IfOk result (λ totals. totals.value.entries
        ≡ (name, record { count = 1; total = length }) ∷ []) }
    ensures room { IfOk result (λ totals. 0 < spare totals.value) }
{
    let mut totals = IndexMap::new(alloc);
    totals.reserve(2)?;
    if totals.insert(name, NameTotal::of_one(length)).is_err() {
        unreachable!();
    }
    let totals = Box::new(alloc, totals)?;
    Ok(totals)
}

// One more span of this name.
fn add_to_total(totals: &mut IndexMap<u32, NameTotal>, name: u32, length: u64)
    requires room { 0 < spare totals.old }
    requires count { (total_in totals.old.entries name).count + 1 < 2 ^ 32 }
    requires total { (total_in totals.old.entries name).total + length < 2 ^ 128 }
    ensures names { keys totals.new ≡ insert_key nat_eq (keys totals.old) name }
    ensures each { (other : ℕ) → total_in totals.new.entries other ≡ (if name == other
        then record {
          count = (total_in totals.old.entries name).count + 1;
          total = (total_in totals.old.entries name).total + length;
        }
        else total_in totals.old.entries other) }
{
    if let Some(held) = totals.get_mut(&name) {
        held.count += 1;
        held.total += u128::from(length);
        return;
    }
    if totals.insert(name, NameTotal::of_one(length)).is_err() {
        unreachable!();
    }
}
