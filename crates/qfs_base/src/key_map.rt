//! A map by key, which contracts see as the list of its entries in the order of their keys.
ghost use Rattle.std.specs.Prelude.{◌≡◌, [], length, is_some, IsTrue, ◌↔◌, OnOk, OnErr};
ghost use Rattle.std.specs.Option.{option_copied};
ghost use Rattle.std.specs.List.Sorted.{IsStrictlySortedBy};
ghost use Rattle.std.specs.Map.{keys_of};
ghost use Rattle.std.specs.Map.Iter.{ShowsInOrder, deref_pair};
ghost use Rattle.qfs_base.specs.KeyMap.{value_at, has_key, with_entry, without_key};

use std::alloc::{AllocError, Global};
use std::collections::{BTreeMap, btree_map};
use std::marker::Model;

/// A map from keys to values. It keeps its allocator.
#[derive(Drop)]
pub struct KeyMap<K: Ord, V> {
    map: BTreeMap<K, V>,
}

impl<K: Ord, V> Model for KeyMap<K, V> {
    ghost use Rattle.std.specs.Prelude.{List};
    ghost use Rattle.std.specs.Coded.{coded_list, coded×};

    ghost Value = { List (K × V) };

    ghost coded = { coded_list (coded× K.code V.code) };

    ghost view = { λ it. it.map.entries };

    ghost use Rattle.std.specs.List.Sorted.{IsStrictlySortedBy};
    ghost use Rattle.std.specs.Map.{keys_of};

    ghost invariant = { λ it. IsStrictlySortedBy K.cmp (keys_of it.map.entries) };
}

impl<K: Ord, V> KeyMap<K, V> {
    /// The empty map, which takes no memory.
    pub fn new(alloc: Global) -> KeyMap<K, V>
        ensures { result ≡ [] }
    {
        KeyMap {
            map: BTreeMap::new(alloc),
        }
    }

    /// The number of entries.
    pub fn len(&self) -> usize
        ensures len { result ≡ length self.now }
        ensures rising { IsStrictlySortedBy K.cmp (keys_of self.now) }
    {
        self.map.len()
    }

    pub fn is_empty(&self) -> bool
        ensures { IsTrue result ↔ (self.now ≡ []) }
    {
        self.map.is_empty()
    }

    /// The value at a key, or None where the key isn't there.
    pub fn get(&self, key: &K) -> Option<&V>
        ensures value { option_copied result ≡ value_at K.cmp self.now key.now }
        ensures variant { is_some result ≡ has_key K.cmp self.now key.now }
    {
        self.map.get(key)
    }

    pub fn contains(&self, key: &K) -> bool
        ensures { result ≡ has_key K.cmp self.now key.now }
    {
        self.map.contains_key(key)
    }

    /// Sets the value at a key; the one that was there is dropped. On want of memory the map
    /// stays, and the value is dropped.
    pub fn insert(&mut self, key: K, value: V) -> Result<(), AllocError>
    where
        K: Drop,
        V: Drop,
        ensures ok { OnOk result (self.new ≡ with_entry K.cmp self.old key value) }
        ensures err { OnErr result (self.new ≡ self.old) }
        ensures rising { IsStrictlySortedBy K.cmp (keys_of self.new) }
    {
        let _old = self.map.insert(key, value)?;
        Ok(())
    }

    /// Takes a key out, and gives the value that was there.
    pub fn remove(&mut self, key: &K) -> Option<V>
    where
        K: Drop,
        ensures value { result ≡ value_at K.cmp self.old key.now }
        ensures entries { self.new ≡ without_key K.cmp self.old key.now }
        ensures rising { IsStrictlySortedBy K.cmp (keys_of self.new) }
    {
        self.map.remove(key)
    }

    pub fn clear(&mut self)
    where
        K: Drop,
        V: Drop,
        ensures { self.new ≡ [] }
    {
        self.map.clear();
    }

    /// The entries, in the order of their keys.
    pub fn iter(&self) -> btree_map::Iter<'_, K, V>
        ensures rest { result ≡ self.now }
        ensures runs { ShowsInOrder (deref_pair {K = K} {X = V}) }
        ensures rising { IsStrictlySortedBy K.cmp (keys_of self.now) }
    {
        self.map.iter()
    }
}
