//! Copies of maps.

ghost use Rattle.std.specs.Prelude.{◌≡◌, IfOk};

use sf_field::ByteString;
use std::alloc::{AllocError, Global};
use std::collections::BTreeMap;

/// A key or a value of a map.
pub(crate) trait TryCopy: Sized + Drop {
    /// An equal value, or an allocation failure.
    fn try_copy(&self, alloc: Global) -> Result<Self, AllocError>
        ensures { IfOk result (λ copy. copy ≡ self.now) };
}

impl TryCopy for u64 {
    fn try_copy(&self, _alloc: Global) -> Result<u64, AllocError> {
        Ok(*self)
    }
}

impl TryCopy for ByteString {
    fn try_copy(&self, _alloc: Global) -> Result<ByteString, AllocError> {
        self.share()
    }
}

/// A copy of a map.
pub(crate) fn copy_of<K: Ord + TryCopy, V: TryCopy>(
    alloc: Global,
    map: &BTreeMap<K, V>,
) -> Result<BTreeMap<K, V>, AllocError>
    ensures { IfOk result (λ copy. copy.entries ≡ map.now.entries) }
{
    // For the proof: the keys are in order.
    let _ = map.len();
    let mut copy = BTreeMap::new(alloc);
    'entries: for (key, value) in map {
        let own_key = key.try_copy(alloc)?;
        let own_value = value.try_copy(alloc)?;
        copy.insert(own_key, own_value)?;
    }
    Ok(copy)
}
