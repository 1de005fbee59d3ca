//! An id behind a pointer.
ghost use Rattle.std.specs.{Cmp.{partial_order_from_own_ties, Rules.{comparing, hashing}}, Ordering.as_partial_cmp, Prelude.{◌≡◌, ◌&&◌, ◌++◌, IfOk}};
ghost use Rattle.std.proofs.Common.{rules};

use crate::event::IdKey;
use std::alloc::{AllocError, Global};
use std::cmp::Ordering;
use std::fmt;
use std::hash::{Hash, Hasher};
use std::marker::Model;

/// An id behind a pointer: most events have none, and are smaller without room for one.
#[derive(Drop)]
pub struct BoxedId {
    key: Box<IdKey>,
}

impl Model for BoxedId {
    ghost use Rattle.span_event.specs.declared.event.IdKey.{IdKey};

    ghost Value = { IdKey };

    ghost view = { λ b. b.key.value };
}

impl BoxedId {
    pub fn new(alloc: Global, key: IdKey) -> Result<BoxedId, AllocError>
        ensures { IfOk result (λ boxed. boxed ≡ key) }
    {
        let key = Box::new(alloc, key)?;
        Ok(BoxedId { key })
    }

    pub fn as_key(&self) -> &IdKey
        ensures { result.now ≡ self.now }
    {
        &self.key
    }

    /// A copy, which shares a long text. It fails where there are 2^63 copies of one, or no memory is left.
    pub fn try_clone(&self, alloc: Global) -> Result<BoxedId, AllocError>
        ensures { IfOk result (λ copy. copy ≡ self.now) }
    {
        let key = self.key.try_clone(alloc)?;
        BoxedId::new(alloc, key)
    }
}

impl PartialEq for BoxedId {
    ghost use Rattle.span_event.specs.Orders.{same_id};

    ghost eq = { same_id };

    ghost laws = { Prim.search (comparing, rules) };

    fn eq(&self, other: &BoxedId) -> bool {
        self.as_key() == other.as_key()
    }
}

impl Eq for BoxedId {
    ghost laws = { Prim.search (comparing, rules) };
}

impl PartialOrd for BoxedId {
    ghost use Rattle.span_event.specs.Orders.{id_cmp};

    ghost partial_cmp = { as_partial_cmp id_cmp };

    ghost laws = { partial_order_from_own_ties (Prim.search (comparing, rules)) (Prim.search (comparing, rules)) };

    fn partial_cmp(&self, other: &BoxedId) -> Option<Ordering> {
        Some(self.cmp(other))
    }
}

/// As the ids.
impl Ord for BoxedId {
    ghost use Rattle.span_event.specs.Orders.{id_cmp};

    ghost cmp = { id_cmp };

    ghost total = { Prim.search (comparing, rules) };

    ghost matches_partial_cmp = { Prim.search (comparing, rules) };

    ghost matches_eq = { Prim.search (comparing, rules) };

    fn cmp(&self, other: &BoxedId) -> Ordering {
        self.as_key().cmp(other.as_key())
    }
}

impl Hash for BoxedId {
    ghost use Rattle.std.specs.Hash as fed;

    ghost hash_input = { λ b. fed.option fed.i64 b.home ++ fed.str b.id };

    ghost respects_eq = { Prim.search (hashing, rules) };

    fn hash<H: Hasher>(&self, state: &mut H) {
        self.as_key().hash(state);
    }
}

impl fmt::Debug for BoxedId {
    fn fmt<W: fmt::Write>(&self, f: &mut fmt::Formatter<W>) -> fmt::Result {
        fmt::Debug::fmt(self.as_key(), f)
    }
}
