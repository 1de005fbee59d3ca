//! The sums of each key.
ghost use Rattle.std.specs.{BTreeMap.is_at, List.IsDistinct, Map.lookup, Ordering.eq_by_cmp, Prelude.{◌≡◌, ◌∷◌, [], false, map, None, IfOk, IsTrue, OnErr, OnOk}};
ghost use Rattle.span_table.specs.{ascending, Adding.keyed_rows, Collected.{IsPlaceOf, Takes}, Keys.key_cmp, Tables.{AreRowsOf, RowsRise, row_cmp, row_of}};

use crate::key::Key;
use crate::sums::Sums;
use crate::table::Row;
use indexmap::IndexMap;
use span_names::HashKeys;
use std::alloc::{AllocError, Global};
use std::marker::Model;

// How far behind the last key one may stand that comes in order.
const NEAR: usize = 64;

/// The sums of each key. A contract sees them in ascending order of keys.
#[derive(Drop)]
pub struct Groups {
    kept: IndexMap<Key, Sums, HashKeys>,
    // Where the last key stood that was there; and where the next one is looked for before it is hashed, if the last came in order, as
    // the keys of tables do that are added.
    last: usize,
    next: Option<usize>,
}

impl Model for Groups {
    ghost use Rattle.span_table.specs.{AreDistinct, in_key_order, Keys.key_cmp, Tables.SumsByKey};

    ghost Value = { SumsByKey };

    ghost view = { λ g. in_key_order key_cmp g.kept.entries };

    ghost invariant = { λ g. AreDistinct key_cmp g.kept.entries };
}

impl Groups {
    /// No sums of any key. Takes no memory.
    pub fn new(alloc: Global, keys: HashKeys) -> Groups
        ensures { result ≡ [] }
    {
        Groups {
            kept: IndexMap::with_hasher(alloc, keys),
            last: 0,
            next: None,
        }
    }

    /// No sums of any key, which are hashed by the same keys.
    pub fn none_beside(&self) -> Groups
        ensures { result ≡ [] }
    {
        Groups::new(*self.kept.allocator(), *self.kept.hasher())
    }

    /// Adds sums to those of a key.
    pub(crate) fn add(&mut self, key: Key, more: Sums) -> Result<(), AllocError>
        ensures takes { OnOk result
            (Takes self.old self.new (record { key = key; step = more } ∷ [])) }
        ensures err { OnErr result (self.new ≡ self.old) }
    {
        self.put(key, more)?;
        Ok(())
    }

    /// Adds sums to those of a key, and says whether there were none.
    pub fn put(&mut self, key: Key, more: Sums) -> Result<bool, AllocError>
        ensures takes { OnOk result
            (Takes self.old self.new (record { key = key; step = more } ∷ [])) }
        ensures new { IfOk result (λ new. IsTrue new
            → lookup (is_at (key_cmp key)) self.old ≡ None) }
        ensures err { OnErr result (self.new ≡ self.old) }
    {
        if self.add_known(&key, &more)? {
            return Ok(false);
        }
        self.insert(key, more)?;
        Ok(true)
    }

    /// Adds sums to those of a key, of which a copy is kept if it is new.
    pub(crate) fn add_copy(&mut self, key: &Key, more: &Sums) -> Result<(), AllocError>
        ensures takes { OnOk result
            (Takes self.old self.new (record { key = key.now; step = more.now } ∷ [])) }
        ensures err { OnErr result (self.new ≡ self.old) }
    {
        if self.add_known(key, more)? {
            return Ok(());
        }
        let key = key.try_clone(*self.kept.allocator())?;
        self.insert(key, *more)
    }

    // Adds sums to those of a key, and says whether there were any.
    fn add_known(&mut self, key: &Key, more: &Sums) -> Result<bool, AllocError>
        ensures takes { IfOk result (λ known. IsTrue known
            → Takes self.old self.new (record { key = key.now; step = more.now } ∷ [])) }
        ensures same { IfOk result (λ known. known ≡ false → self.new ≡ self.old) }
        ensures new { IfOk result (λ known. known ≡ false
            → lookup (is_at (key_cmp key.now)) self.new ≡ None) }
        ensures err { OnErr result (self.new ≡ self.old) }
    {
        let at = place_of(&self.kept, self.next, key);
        let Some(sums) = self.kept.get_index_mut(at) else {
            return Ok(false);
        };
        *sums = sums.plus(more)?;
        self.next = place_behind(self.last, at);
        self.last = at;
        Ok(true)
    }

    // Keeps the sums of a new key.
    fn insert(&mut self, key: Key, more: Sums) -> Result<(), AllocError>
        requires new { lookup (is_at (key_cmp key)) self.old ≡ None }
        ensures takes { OnOk result
            (Takes self.old self.new (record { key = key; step = more } ∷ [])) }
        ensures err { OnErr result (self.new ≡ self.old) }
    {
        self.kept.insert(key, more)?;
        Ok(())
    }

    /// Adds all sums of others to those of their keys. Some may have been added where memory is refused.
    pub(crate) fn add_all(&mut self, others: Groups) -> Result<(), AllocError>
        ensures { OnOk result (Takes self.old self.new (keyed_rows (map row_of others))) }
    {
        for (key, sums) in others.kept {
            self.add(key, sums)?;
        }
        Ok(())
    }

    /// The keys in ascending order, with the sums of each.
    pub fn into_rows(self) -> Result<Vec<Row>, AllocError>
        ensures rows { IfOk result (λ rows. rows.items ≡ map row_of self) }
        ensures rise { IfOk result (λ rows. RowsRise rows.items) }
    {
        Ok(in_order(self.into_mixed()?))
    }

    /// The keys in whatever order, with the sums of each.
    pub(crate) fn into_mixed(self) -> Result<Vec<Row>, AllocError>
        ensures { IfOk result (λ rows. AreRowsOf (map row_of self) rows.items) }
    {
        let rows = rows_of(self.kept)?;
        Ok(rows)
    }
}

/// The rows in ascending order of keys.
pub(crate) fn in_order(rows: Vec<Row>) -> Vec<Row>
    requires { IsDistinct (eq_by_cmp row_cmp) rows.items }
    ensures rows { result.items ≡ ascending row_cmp rows.items }
    ensures rise { RowsRise result.items }
{
    let mut rows = rows;
    rows.sort_unstable_by(|a, b| a.key.cmp(&b.key));
    rows
}

// The place behind a key, if it stands not far behind the last one.
fn place_behind(last: usize, at: usize) -> Option<usize> {
    if last < at && at - last <= NEAR {
        at.checked_add(1)
    } else {
        None
    }
}

// Where a key stands, which is first looked for here; behind all where there is none.
fn place_of(kept: &IndexMap<Key, Sums, HashKeys>, guess: Option<usize>, key: &Key) -> usize
    ensures { IsPlaceOf kept.now.entries key.now result }
{
    if let Some(at) = guess
        && let Some((known, _)) = kept.get_index(at)
        && known == key
    {
        return at;
    }
    match kept.get_index_of(key) {
        Some(at) => at,
        None => kept.len(),
    }
}

// The rows in the order of their first uses.
fn rows_of(kept: IndexMap<Key, Sums, HashKeys>) -> Result<Vec<Row>, AllocError>
    ensures { IfOk result (λ rows. rows.items ≡ map row_of kept.entries) }
{
    let mut rows = Vec::with_capacity(*kept.allocator(), kept.len())?;
    for (key, sums) in kept {
        rows.push(Row { key, sums })?;
    }
    Ok(rows)
}
