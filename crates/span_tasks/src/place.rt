//! Where requests are done.

use std::alloc::Global;
use std::mem::forget;

/// Where requests are done: what threads and random numbers come from, memory, and what names stand for.
#[derive(Clone, Copy)]
pub struct Place<'a, R, S> {
    pub rt: &'a R,
    pub alloc: Global,
    pub source: &'a S,
    /// Whether a person reads the lines, so that hints are looked for.
    pub takes_hints: bool,
    /// Whether the process ends next, and the system frees all at once, where freeing one by one takes long.
    pub ends: bool,
}

impl<'a, R, S> Place<'a, R, S> {
    /// Frees this, unless the process ends next.
    pub(crate) fn let_go<T: Drop>(&self, value: T) {
        if self.ends {
            forget(value);
        } else {
            drop(value);
        }
    }
}
