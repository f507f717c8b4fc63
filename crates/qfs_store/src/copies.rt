//! The copies that a chunk server knows of.
ghost use Rattle.std.specs.Prelude.{◌≡◌, [], IfOk, OnOk, OnErr};
ghost use Rattle.std.specs.List.Sorted.{IsStrictlySortedBy};
ghost use Rattle.std.specs.Map.{keys_of};
ghost use Rattle.qfs_base.specs.Key.{key_cmp};
ghost use Rattle.qfs_base.specs.KeyMap.{value_at, has_key, with_entry, without_key};
ghost use Rattle.qfs_store.specs.Known.{resized};

use qfs_base::chunk::ChunkKey;
use qfs_base::lists::KeyList;
use std::alloc::{AllocError, Global};
use std::collections::BTreeMap;
use std::marker::Model;

/// How a copy's record is written, and how many bytes the copy has.
#[derive(Clone, Copy, PartialEq, Eq)]
pub struct CopySize {
    /// The version of the record: 1 or 2.
    pub form: u8,
    /// At most 67,108,864.
    pub len: u32,
}

/// The copies, by key. It keeps its allocator.
#[derive(Drop)]
pub struct Copies {
    map: BTreeMap<ChunkKey, CopySize>,
}

impl Model for Copies {
    ghost use Rattle.qfs_store.specs.Known.{Sizes};

    ghost Value = { Sizes };

    ghost view = { λ it. it.map.entries };

    ghost use Rattle.std.specs.List.Sorted.{IsStrictlySortedBy};
    ghost use Rattle.std.specs.Map.{keys_of};
    ghost use Rattle.qfs_base.specs.Key.{key_cmp};

    ghost invariant = { λ it. IsStrictlySortedBy key_cmp (keys_of it.map.entries) };
}

impl Copies {
    /// No copies. It takes no memory.
    pub fn new(alloc: Global) -> Copies
        ensures { result ≡ [] }
    {
        Copies {
            map: BTreeMap::new(alloc),
        }
    }

    /// The size of the copy under a key, or None where there is no such copy.
    pub fn get(&self, key: &ChunkKey) -> Option<CopySize>
        ensures { result ≡ value_at key_cmp self.now key.now }
    {
        self.map.get(key).copied()
    }

    /// Whether there is a copy under a key.
    pub fn contains(&self, key: &ChunkKey) -> bool
        ensures { result ≡ has_key key_cmp self.now key.now }
    {
        self.map.contains_key(key)
    }

    /// Puts a copy under a key. On want of memory the copies stay.
    pub fn insert(&mut self, key: ChunkKey, size: CopySize) -> Result<(), AllocError>
        ensures ok { OnOk result (self.new ≡ with_entry key_cmp self.old key size) }
        ensures err { OnErr result (self.new ≡ self.old) }
    {
        let _old = self.map.insert(key, size)?;
        Ok(())
    }

    /// Writes another size in place of that of a copy, if it is there. It takes no memory.
    pub fn set(&mut self, key: ChunkKey, size: CopySize)
        ensures { self.new ≡ resized self.old key size }
    {
        if !self.map.contains_key(&key) {
            return;
        }
        if self.map.insert(key, size).is_err() {
            unreachable!();
        }
    }

    /// Takes a copy out, if it is there.
    pub fn remove(&mut self, key: &ChunkKey)
        ensures { self.new ≡ without_key key_cmp self.old key.now }
    {
        let _size = self.map.remove(key);
    }

    /// Takes all copies out.
    pub fn clear(&mut self)
        ensures { self.new ≡ [] }
    {
        self.map.clear();
    }

    /// Puts other copies in the place of these, which rose by key.
    pub fn replace(&mut self, found: Copies)
        ensures found { self.new ≡ found }
        ensures rose { IsStrictlySortedBy key_cmp (keys_of self.old) }
    {
        let Copies { map } = found;
        self.map = map;
    }

    /// The keys of the copies, rising.
    pub fn keys(&self, alloc: Global) -> Result<KeyList, AllocError>
        ensures { IfOk result (λ keys. keys ≡ keys_of self.now) }
    {
        let mut keys = KeyList::with_capacity(alloc, self.map.len())?;
        for (key, _) in self.map.iter() {
            keys.push(*key)?;
        }
        Ok(keys)
    }
}
