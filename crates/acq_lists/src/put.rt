//! Values by key.

ghost use Rattle.std.specs.Prelude.{◌≡◌, ◌+◌, ◌<◌, ◌≤◌, Some, if◌then◌else◌};
ghost use Rattle.indexmap.specs.IndexMap.{get, spare};

use indexmap::IndexMap;
use std::hash::{Hash, RandomState};

/// Puts a value at a key, in place of what was there. There is room for one more.
pub(crate) fn put<K: Eq + Hash + Drop, V: Drop>(
    map: &mut IndexMap<K, V, RandomState>,
    key: K,
    value: V,
)
    requires { 0 < spare map.old }
    ensures values { (k : K) → get K.eq map.new k
        ≡ (if K.eq key k then Some value else get K.eq map.old k) }
    ensures spare { spare map.old ≤ spare map.new + 1 }
{
    map.insert(key, value).unwrap();
}
