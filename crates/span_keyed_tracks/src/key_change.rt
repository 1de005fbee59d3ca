//! What is kept of the events of each key.
ghost use Rattle.std.specs.{Borrow.MutBor, Fn.FnOnceReturnsAtMut, Prelude.{◌≡◌, Err, IfOk}};
ghost use Rattle.span_keyed_tracks.specs.{Keyed.kept_at, KeyedKept.ChangesAt, declared.fault.TrackFault.TrackFault};

use crate::fault::TrackFault;
use std::alloc::{AllocError, Global};
use std::collections::BTreeMap;

/// A key, which is copied when it gets its first event.
pub(crate) trait Key: Ord + Drop {
    fn copied(&self, alloc: Global) -> Result<Self, AllocError>
        ensures { IfOk result (λ key. key ≡ self.now) };
}

// Changes what is kept of a key, which is `none` where it had no event. Where that is refused, all stays as it was.
pub(crate) fn change_at<K: Key, V: Drop, T: Copy, F: FnOnce(&mut V) -> Result<T, TrackFault>>(
    alloc: Global,
    kept: &mut BTreeMap<K, V>,
    key: &K,
    none: V,
    change: F,
) -> Result<T, TrackFault>
    requires can { (value : MutBor V)
        → value.now ≡ kept_at K.cmp none kept.old.entries key.now
        → F.pre change value }
    requires stays { (old new : V) (fault : TrackFault)
        → FnOnceReturnsAtMut F.FnOnce change old (Err fault) new → new ≡ old }
    ensures { ChangesAt K.cmp none (FnOnceReturnsAtMut F.FnOnce change) kept.old.entries
        kept.new.entries key.now result }
{
    if let Some(value) = kept.get_mut(key) {
        return change(value);
    }
    let mut value = none;
    let answer = change(&mut value)?;
    let Ok(key) = key.copied(alloc) else {
        return Err(TrackFault::Memory);
    };
    match kept.insert(key, value) {
        Ok(_) => Ok(answer),
        Err(_) => Err(TrackFault::Memory),
    }
}
