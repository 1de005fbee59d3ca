//! How many files are read at once.
use std::sync::{Mutex, MutexGuard, Wait};

/// Where many workers read at the same time, all of them are late to tell their first item, and the ledger has nothing to do until
/// then. A few readers keep it busy, since items are told one after another.
pub(crate) const PLACES: usize = 3;

/// Places for workers that read their files, each for one worker at a time.
#[derive(Drop)]
pub(crate) struct ReadingPlaces {
    places: [Mutex<()>; PLACES],
}

impl ReadingPlaces {
    pub(crate) fn new() -> ReadingPlaces {
        ReadingPlaces {
            places: [Mutex::new(()), Mutex::new(()), Mutex::new(())],
        }
    }

    /// Waits for the worker's place, which is free again once what is returned is dropped.
    pub(crate) fn take<R: Wait>(&self, rt: &R, worker: u32) -> MutexGuard<'_, ()> {
        self.places[worker as usize % PLACES].lock(rt)
    }
}
