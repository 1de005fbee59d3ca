//! Where a caller of a collection may hold its threads up.

/// Is called by the threads of a collection before their steps. Nobody has the turn at the ledger during a call.
pub trait Gate: Sync {
    /// Called by a worker before it reads its file's bytes. `worker` is the file's place, from 0.
    fn read(&self, worker: u32);

    /// Called by a worker before it tells its item number `call`, and by the asking thread before its query number `call`, both
    /// from 0. For the latter `worker` is the number of files.
    fn pass(&self, worker: u32, call: u32);
}

/// A gate that holds nobody up.
#[derive(Clone, Copy)]
pub struct FreeGate;

impl Gate for FreeGate {
    fn read(&self, _worker: u32) {}

    fn pass(&self, _worker: u32, _call: u32) {}
}
