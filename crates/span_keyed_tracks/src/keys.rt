//! The keys of asynchronous spans, of flow chains and of series.
ghost use Rattle.std.specs.Prelude.{◌≡◌, IfOk};

use crate::key_change::Key;
use span_event::{BoxedId, Text, Thread};
use std::alloc::{AllocError, Global};

/// What asynchronous events that belong together share. Ordered by its fields in their order.
#[derive(Debug, Drop, PartialEq, Eq, PartialOrd, Ord, Hash)]
pub struct AsyncKey {
    pub cat: Text,
    pub scope: Text,
    pub id: BoxedId,
    pub name: Text,
}

impl AsyncKey {
    /// A copy of the key.
    pub fn try_clone(&self, alloc: Global) -> Result<AsyncKey, AllocError>
        ensures { IfOk result (λ key. key ≡ self.now) }
    {
        let cat = self.cat.try_clone(alloc)?;
        let scope = self.scope.try_clone(alloc)?;
        let id = self.id.try_clone(alloc)?;
        let name = self.name.try_clone(alloc)?;
        Ok(AsyncKey {
            cat,
            scope,
            id,
            name,
        })
    }
}

impl Key for AsyncKey {
    fn copied(&self, alloc: Global) -> Result<AsyncKey, AllocError> {
        self.try_clone(alloc)
    }
}

/// What the points of a flow chain share. Ordered by category, name and id.
#[derive(Debug, Drop, PartialEq, Eq, PartialOrd, Ord, Hash)]
pub struct FlowKey {
    pub cat: Text,
    pub name: Text,
    pub id: BoxedId,
}

impl FlowKey {
    /// A copy of the key.
    pub fn try_clone(&self, alloc: Global) -> Result<FlowKey, AllocError>
        ensures { IfOk result (λ key. key ≡ self.now) }
    {
        let cat = self.cat.try_clone(alloc)?;
        let name = self.name.try_clone(alloc)?;
        let id = self.id.try_clone(alloc)?;
        Ok(FlowKey { cat, name, id })
    }
}

impl Key for FlowKey {
    fn copied(&self, alloc: Global) -> Result<FlowKey, AllocError> {
        self.try_clone(alloc)
    }
}

/// What the samples of a series share: the counter's process, name and id, and the name of the series. Ordered by its fields in
/// their order, no id before any.
#[derive(Debug, Drop, PartialEq, Eq, PartialOrd, Ord, Hash)]
pub struct SeriesKey {
    pub pid: i64,
    pub name: Text,
    pub id: Option<BoxedId>,
    pub series: Text,
}

impl SeriesKey {
    /// A copy of the key.
    pub fn try_clone(&self, alloc: Global) -> Result<SeriesKey, AllocError>
        ensures { IfOk result (λ key. key ≡ self.now) }
    {
        let name = self.name.try_clone(alloc)?;
        let series = self.series.try_clone(alloc)?;
        let id = match &self.id {
            Some(id) => Some(id.try_clone(alloc)?),
            None => None,
        };
        Ok(SeriesKey {
            pid: self.pid,
            name,
            id,
            series,
        })
    }
}

impl Key for Text {
    fn copied(&self, alloc: Global) -> Result<Text, AllocError> {
        self.try_clone(alloc)
    }
}

impl Key for Thread {
    fn copied(&self, _alloc: Global) -> Result<Thread, AllocError> {
        Ok(*self)
    }
}
