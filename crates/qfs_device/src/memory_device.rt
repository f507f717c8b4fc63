//! Devices that keep their chunks in memory.
ghost use Rattle.std.specs.Prelude.{◌≡◌, ◌+◌, ◌≤◌, length, take, drop, map, Some, IsTrue, IfOk};
ghost use Rattle.std.specs.List.Sorted.{IsStrictlySortedBy};
ghost use Rattle.qfs_base.specs.Key.{key_cmp};
ghost use Rattle.qfs_base.specs.KeyMap.{value_at, has_key};
ghost use Rattle.qfs_device.specs.Held.{sizes_of, new_device};

use crate::chunk_device::{ChunkDevice, KeySize, KeySizes};
use crate::errors::DeviceError;
use crate::faults::{FailList, Faults, NeverFails};
use qfs_base::chunk::ChunkKey;
use qfs_base::key_map::KeyMap;
use qfs_base::listing::Listing;
use qfs_base::numbers::Life;
use std::alloc::{AllocError, Global};

/// A device in memory. It tells what it holds.
#[derive(Drop)]
pub struct MapDevice<F> {
    chunks: KeyMap<ChunkKey, Listing<u8>>,
    life: Life,
    handed_out: u64,
    faults: F,
    alloc: Global,
}

/// A device in memory whose calls fail by a list.
pub type MemoryDevice = MapDevice<FailList>;

/// A device in memory that never fails.
pub type SureDevice = MapDevice<NeverFails>;

impl MapDevice<FailList> {
    /// An empty device in its first life. `fails` are the numbers of the calls that fail,
    /// rising, counted from 1 over all calls but `life`. It takes no memory.
    pub fn new(alloc: Global, fails: Vec<u64>) -> MapDevice<FailList>
        ensures told { ⟦<MapDevice<FailList> as ChunkDevice>⟧.told result ≡ Some new_device }
        ensures faults { ⟦<MapDevice<FailList> as ChunkDevice>⟧.faults result ≡ 0 }
    {
        MapDevice {
            chunks: KeyMap::new(alloc),
            life: 1,
            handed_out: 0,
            faults: FailList::new(fails),
            alloc,
        }
    }
}

impl MapDevice<NeverFails> {
    /// An empty device in its first life. It takes no memory.
    pub fn new(alloc: Global) -> MapDevice<NeverFails>
        ensures told { ⟦<MapDevice<NeverFails> as ChunkDevice>⟧.told result ≡ Some new_device }
        ensures faults { ⟦<MapDevice<NeverFails> as ChunkDevice>⟧.faults result ≡ 0 }
    {
        MapDevice {
            chunks: KeyMap::new(alloc),
            life: 1,
            handed_out: 0,
            faults: NeverFails,
            alloc,
        }
    }
}

// The bytes under a key that is there.
fn bytes_under<'a>(chunks: &'a KeyMap<ChunkKey, Listing<u8>>, key: &ChunkKey) -> &'a [u8]
    requires { IsTrue (has_key key_cmp chunks.now key.now) }
    ensures { value_at key_cmp chunks.now key.now ≡ Some result.now }
{
    chunks.get(key).unwrap().as_slice()
}

// Fills `out` from the bytes at `from`.
fn copy_part(bytes: &[u8], from: usize, out: &mut [u8])
    requires { from + length out.old ≤ length bytes.now }
    ensures { out.new ≡ take (length out.old) (drop from bytes.now) }
{
    out.copy_from_slice(&bytes[from..from + out.len()]);
}

// Each key with the length of its bytes.
fn key_sizes(alloc: Global, chunks: &KeyMap<ChunkKey, Listing<u8>>) -> Result<KeySizes, AllocError>
    ensures sizes { IfOk result (λ sizes. sizes ≡ sizes_of chunks.now) }
    ensures rising { IfOk result (λ sizes. IsStrictlySortedBy key_cmp (map (λ chunk. chunk.key) sizes)) }
{
    let mut sizes = Listing::with_capacity(alloc, chunks.len())?;
    for (key, bytes) in chunks.iter() {
        sizes.push(KeySize {
            key: *key,
            size: bytes.len() as u64,
        })?;
    }
    Ok(sizes)
}

impl<F: Faults> ChunkDevice for MapDevice<F> {
    ghost told = { λ device. Some (record { contents = device.chunks; life = device.life; handed_out = device.handed_out }) };

    ghost faults = { λ device. F.count device.faults };

    /// A write that fails leaves its key absent.
    fn write(&mut self, key: ChunkKey, bytes: &[u8]) -> Result<(), DeviceError> {
        if self.faults.next_fails() {
            let _torn = self.chunks.remove(&key);
            return Err(DeviceError::Failed);
        }
        let bytes = Listing::from_slice(self.alloc, bytes)?;
        self.chunks.insert(key, bytes)?;
        Ok(())
    }

    fn read(&mut self, key: ChunkKey, at: u32, out: &mut [u8]) -> Result<(), DeviceError> {
        if self.faults.next_fails() {
            return Err(DeviceError::Failed);
        }
        copy_part(bytes_under(&self.chunks, &key), at as usize, out);
        self.handed_out = self.handed_out.saturating_add(out.len() as u64);
        Ok(())
    }

    fn remove(&mut self, key: ChunkKey) -> Result<(), DeviceError> {
        if self.faults.next_fails() {
            return Err(DeviceError::Failed);
        }
        let _chunk = self.chunks.remove(&key);
        Ok(())
    }

    fn keys(&mut self) -> Result<KeySizes, DeviceError> {
        if self.faults.next_fails() {
            return Err(DeviceError::Failed);
        }
        Ok(key_sizes(self.alloc, &self.chunks)?)
    }

    fn wipe(&mut self) -> Result<(), DeviceError> {
        if self.faults.next_fails() {
            return Err(DeviceError::Failed);
        }
        self.chunks.clear();
        self.life = self.life.saturating_add(1);
        Ok(())
    }

    fn life(&self) -> Life {
        self.life
    }
}
