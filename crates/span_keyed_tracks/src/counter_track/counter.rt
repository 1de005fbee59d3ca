//! Counters, and the keys of their series by the numbers of the counters.
ghost use Rattle.std.specs.Prelude.{◌≡◌, IfOk};
ghost use Rattle.span_keyed_tracks.specs.CountersKept.{counter_of, counter_of_key, key_of};

use crate::keys::SeriesKey;
use span_event::{BoxedId, Event, Text};
use std::alloc::{AllocError, Global};

/// The process, the name and the id of a counter.
#[derive(Drop, PartialEq, Eq, Hash)]
pub(crate) struct Counter {
    pub(super) pid: i64,
    pub(super) name: Text,
    pub(super) id: Option<BoxedId>,
}

impl Counter {
    // The counter of an event.
    pub(super) fn of(alloc: Global, event: &Event) -> Result<Counter, AllocError>
        ensures { IfOk result (λ counter. counter ≡ counter_of event.now) }
    {
        Ok(Counter {
            pid: event.pid,
            name: event.name.try_clone(alloc)?,
            id: copy_of(alloc, &event.key)?,
        })
    }

    // The counter of a series.
    pub(super) fn of_key(alloc: Global, key: &SeriesKey) -> Result<Counter, AllocError>
        ensures { IfOk result (λ counter. counter ≡ counter_of_key key.now) }
    {
        Ok(Counter {
            pid: key.pid,
            name: key.name.try_clone(alloc)?,
            id: copy_of(alloc, &key.id)?,
        })
    }

    // The key of one of its series.
    pub(super) fn key_of(&self, alloc: Global, series: &Text) -> Result<SeriesKey, AllocError>
        ensures { IfOk result (λ key. key ≡ key_of self.now series.now) }
    {
        Ok(SeriesKey {
            pid: self.pid,
            name: self.name.try_clone(alloc)?,
            id: copy_of(alloc, &self.id)?,
            series: series.try_clone(alloc)?,
        })
    }
}

fn copy_of(alloc: Global, id: &Option<BoxedId>) -> Result<Option<BoxedId>, AllocError>
    ensures { IfOk result (λ copy. copy ≡ id.now) }
{
    match id {
        Some(id) => Ok(Some(id.try_clone(alloc)?)),
        None => Ok(None),
    }
}

/// The key of a series, by the number of its counter: an event may have thousands of series, and a counter of a long name or id is
/// hashed and compared once for all of them.
#[derive(Drop, PartialEq, Eq, Hash)]
pub(crate) struct NumberedSeries {
    pub(super) counter: usize,
    pub(super) series: Text,
}
