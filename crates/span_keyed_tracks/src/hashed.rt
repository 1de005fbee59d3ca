//! What is kept of the events of each key, by hashes of the keys.
ghost use Rattle.std.specs.{BTreeMap.is_at, Borrow.MutBor, Fn.FnOnceReturnsAtMut, Map.lookup, Prelude.{◌≡◌, Err, option_copied}, declared.cmp.Ordering.TheVariants.Equal};
ghost use Rattle.span_keyed_tracks.specs.{Keyed.{AreDistinct, in_key_order, kept_at}, KeyedKept.ChangesAt, declared.fault.TrackFault.TrackFault};

use crate::fault::TrackFault;
use crate::key_change::Key;
use indexmap::IndexMap;
use span_names::HashKeys;
use std::alloc::Global;
use std::hash::Hash;

// What is kept of a key, where it had an event.
pub(crate) fn find<'a, K: Key + Hash, V>(
    kept: &'a IndexMap<K, V, HashKeys>,
    key: &K,
) -> Option<&'a V>
    requires same { (a b : K) → K.cmp a b ≡ Equal → a ≡ b }
    requires distinct { AreDistinct K.cmp kept.now.entries }
    ensures { option_copied result
        ≡ lookup (is_at (K.cmp key.now)) (in_key_order K.cmp kept.now.entries) }
{
    kept.get(key)
}

// Changes what is kept of a key, which is `none` where it had no event. Where that is refused, all stays as it was.
pub(crate) fn change_at<
    K: Key + Hash,
    V: Drop,
    T: Copy,
    F: FnOnce(&mut V) -> Result<T, TrackFault>,
>(
    alloc: Global,
    kept: &mut IndexMap<K, V, HashKeys>,
    key: &K,
    none: V,
    change: F,
) -> Result<T, TrackFault>
    requires same { (a b : K) → K.cmp a b ≡ Equal → a ≡ b }
    requires distinct { AreDistinct K.cmp kept.old.entries }
    requires can { (value : MutBor V)
        → value.now ≡ kept_at K.cmp none (in_key_order K.cmp kept.old.entries) key.now
        → F.pre change value }
    requires stays { (old new : V) (fault : TrackFault)
        → FnOnceReturnsAtMut F.FnOnce change old (Err fault) new → new ≡ old }
    ensures changes { ChangesAt K.cmp none (FnOnceReturnsAtMut F.FnOnce change)
        (in_key_order K.cmp kept.old.entries) (in_key_order K.cmp kept.new.entries) key.now result }
    ensures distinct { AreDistinct K.cmp kept.new.entries }
{
    if let Some(value) = kept.get_mut(key) {
        return change(value);
    }
    let mut value = none;
    let answer = change(&mut value)?;
    let Ok(key) = key.copied(alloc) else {
        return Err(TrackFault::Memory);
    };
    match kept.insert(key, value) {
        Ok(_) => Ok(answer),
        Err(_) => Err(TrackFault::Memory),
    }
}
