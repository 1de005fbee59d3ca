//! By what the rows of a table are distinguished.
ghost use Rattle.std.specs.{Cmp.{eq_by_cmp_equiv, partial_equiv_from_equiv, partial_order_from_total}, Ordering.eq_by_cmp, Prelude.{◌≡◌, ◌↔◌, ◌++◌, ◌∷◌, [], Some, refl, fold, IfOk, IsTrue, OnOk}};
ghost use Rattle.std.proofs.Common.{ap};
ghost use Rattle.span_table.specs.{KeyLaws.{key_cmp_total, key_eq-same}, KeyWrites.{key_writes, value_writes}, Keys.key_cmp};

use crate::column::copy_of;
use span_event::ArgValue;
use std::alloc::{AllocError, Global};
use std::cmp::Ordering;
use std::hash::{Hash, Hasher};
use std::marker::Model;

/// A value for each column of a table, None where a span has nothing there. Ordered from the left, None first.
#[derive(Drop)]
pub struct Key {
    values: Vec<Option<ArgValue>>,
}

impl Model for Key {
    ghost use Rattle.span_table.specs.Keys.{TableKey};

    ghost Value = { TableKey };

    ghost view = { λ k. k.values.items };
}

impl Key {
    pub fn of(values: Vec<Option<ArgValue>>) -> Key
        ensures { result ≡ values.items }
    {
        Key { values }
    }

    pub fn values(&self) -> &[Option<ArgValue>]
        ensures { result.now ≡ self.now }
    {
        &self.values
    }

    pub(crate) fn clear(&mut self)
        ensures { self.new ≡ [] }
    {
        self.values.clear();
    }

    /// Appends a value.
    pub(crate) fn push(&mut self, value: Option<ArgValue>) -> Result<(), AllocError>
        ensures { OnOk result (self.new ≡ self.old ++ value ∷ []) }
    {
        self.values.push(value)?;
        Ok(())
    }

    pub(crate) fn try_clone(&self, alloc: Global) -> Result<Key, AllocError>
        ensures { IfOk result (λ copy. copy ≡ self.now) }
    {
        let mut values = Vec::with_capacity(alloc, self.values.len())?;
        for value in &self.values {
            values.push(copy_of(alloc, value.as_ref())?)?;
        }
        Ok(Key { values })
    }
}

impl PartialEq for Key {
    ghost eq = { eq_by_cmp key_cmp };

    ghost laws = { partial_equiv_from_equiv (eq_by_cmp_equiv key_cmp_total) };

    // Texts of different lengths differ at once, where their order looks at bytes.
    fn eq(&self, other: &Key) -> bool {
        are_same(&self.values, &other.values)
    }
}

impl Eq for Key {
    ghost laws = { eq_by_cmp_equiv key_cmp_total };
}

impl PartialOrd for Key {
    ghost partial_cmp = { λ x y. Some (key_cmp x y) };

    ghost laws = { partial_order_from_total key_cmp_total };

    fn partial_cmp(&self, other: &Key) -> Option<Ordering> {
        Some(self.cmp(other))
    }
}

impl Ord for Key {
    ghost cmp = { key_cmp };

    ghost total = { key_cmp_total };

    ghost matches_partial_cmp = { λ x y. refl };

    ghost matches_eq = { λ x y. refl };

    fn cmp(&self, other: &Key) -> Ordering {
        self.values.cmp(&other.values)
    }
}

impl Hash for Key {
    ghost hash_input = { key_writes };

    ghost respects_eq = { λ x y e. ap key_writes (key_eq-same x y e) };

    fn hash<H: Hasher>(&self, state: &mut H) {
        for value in &self.values {
            hash_value(value, state);
        }
    }
}

fn are_same(values: &[Option<ArgValue>], others: &[Option<ArgValue>]) -> bool
    ensures { IsTrue result ↔ values.now ≡ others.now }
{
    let Some((value, values)) = values.split_first() else {
        return others.is_empty();
    };
    let Some((other, others)) = others.split_first() else {
        return false;
    };
    is_same(value, other) && are_same(values, others)
}

fn is_same(value: &Option<ArgValue>, other: &Option<ArgValue>) -> bool
    ensures { IsTrue result ↔ value.now ≡ other.now }
{
    value == other
}

// A value begins with a byte that no text has, so different keys give the hasher different bytes, though neither how many values there
// are nor where a text ends is written.
fn hash_value<H: Hasher>(value: &Option<ArgValue>, state: &mut H)
    ensures { state.new ≡ fold H.write state.old (value_writes value.now) }
{
    match value {
        None => state.write_u8(0xf8),
        Some(ArgValue::Nil) => state.write_u8(0xf9),
        Some(ArgValue::Flag(false)) => state.write_u8(0xfa),
        Some(ArgValue::Flag(true)) => state.write_u8(0xfb),
        Some(ArgValue::Whole(number)) => {
            state.write_u8(0xfc);
            state.write_i64(*number);
        }
        Some(ArgValue::Words(text)) => {
            state.write_u8(0xfd);
            state.write(text.as_str().as_bytes());
        }
        Some(ArgValue::Other) => state.write_u8(0xfe),
    }
}
