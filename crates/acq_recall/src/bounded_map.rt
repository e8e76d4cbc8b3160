//! Maps with a bound.

ghost use Rattle.std.specs.Prelude.{◌≡◌, None};
ghost use Rattle.std.specs.Option.{option_copied};
ghost use Rattle.indexmap.specs.IndexMap.{get};
ghost use Rattle.acq_recall.specs.Kept.{Forgets, Keeps, Notes, Sets};

use indexmap::IndexMap;
use std::alloc::Global;
use std::hash::{Hash, RandomState};

/// How many entries a map has at most: some hundred kilobytes.
const MOST: usize = 4096;

/// A map that takes no more entries once it is full. Its keys are chosen by terminals, so they are
/// found by hash under random keys.
#[derive(Drop)]
pub(crate) struct BoundedMap<K: Eq + Hash + Drop, V: Drop> {
    entries: IndexMap<K, V, RandomState>,
}

impl<K: Copy + Eq + Hash + Drop, V: Drop> BoundedMap<K, V> {
    /// An empty map. It takes no memory.
    pub fn new(alloc: Global, keys: RandomState) -> BoundedMap<K, V>
        ensures { (key : K) → get K.eq result.entries key ≡ None }
    {
        BoundedMap {
            entries: IndexMap::with_hasher(alloc, keys),
        }
    }

    /// What is kept under a key.
    pub fn get(&self, key: &K) -> Option<&V>
        ensures { option_copied result ≡ get K.eq self.now.entries key.now }
    {
        self.entries.get(key)
    }

    /// Keeps a value under a key, if nothing is kept there yet and there is room.
    pub fn note(&mut self, key: &K, value: V)
        ensures keeps { Keeps (get K.eq self.old.entries) (get K.eq self.new.entries) }
        ensures notes { Notes K.eq (get K.eq self.old.entries) (get K.eq self.new.entries) key.now
            value }
    {
        if self.entries.len() < MOST && self.entries.get(key).is_none() {
            // Without memory it isn't kept.
            let _ = self.entries.insert(*key, value);
        }
    }

    /// Keeps a value under a key in place of what is kept there.
    pub fn set(&mut self, key: &K, value: V)
        ensures { Sets K.eq (get K.eq self.old.entries) (get K.eq self.new.entries) key.now value }
    {
        if self.entries.insert(*key, value).is_err() {
            self.forget(key);
        }
    }

    /// Lets go what is kept under a key.
    pub fn forget(&mut self, key: &K)
        ensures { Forgets K.eq (get K.eq self.old.entries) (get K.eq self.new.entries) key.now }
    {
        let _ = self.entries.swap_remove(key);
    }

    /// Lets all go.
    pub fn clear(&mut self)
        ensures { (key : K) → get K.eq self.new.entries key ≡ None }
    {
        self.entries.clear();
    }

    /// Lets all go, if there is no more room.
    pub fn make_room(&mut self)
        ensures { Keeps (get K.eq self.new.entries) (get K.eq self.old.entries) }
    {
        if self.entries.len() >= MOST {
            self.entries.clear();
        }
    }
}
