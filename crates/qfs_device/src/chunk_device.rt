//! The devices that keep the chunks of a server.
ghost use Rattle.std.specs.Prelude.{◌≡◌, ℕ, Option, length, take, drop, map, IfSome, IfOk};
ghost use Rattle.std.specs.Option.{ForSome};
ghost use Rattle.std.specs.List.Sorted.{IsStrictlySortedBy};
ghost use Rattle.qfs_base.specs.Key.{key_cmp};
ghost use Rattle.qfs_device.specs.Fault.{Counts, TakesNoMemory};
ghost use Rattle.qfs_device.specs.Held.{Held, LiesIn, Writes, Does, bytes_at, handing, lacking, emptied, sizes_of};

use crate::errors::DeviceError;
use qfs_base::chunk::ChunkKey;
use qfs_base::listing::Listing;
use qfs_base::numbers::Life;

/// A chunk on a device: its key, and the length of its bytes.
#[derive(Clone, Copy, PartialEq, Eq)]
pub struct KeySize {
    pub key: ChunkKey,
    pub size: u64,
}

/// The chunks on a device, rising by key.
pub type KeySizes = Listing<KeySize>;

/// Keeps the chunks of one server: for each key its bytes, and the server's life.
///
/// A device may tell clauses what it holds. Whether it does stays the same through every call.
/// It counts its faults: a call that answers `Failed` raises the count by one, or leaves it at the
/// last value of 64 bits, and every other call leaves it as it was. So it retries nothing unsaid.
pub trait ChunkDevice: Drop + Send + Sync {
    /// What the device holds, if it tells that.
    ghost told: { Self → Option Held };

    /// How often the device has failed.
    ghost faults: { Self → ℕ };

    /// Puts bytes under a key. A write that fails leaves that key absent or holding a proper
    /// prefix of the bytes; one that finds no memory changes nothing. Other keys stay.
    fn write(&mut self, key: ChunkKey, bytes: &[u8]) -> Result<(), DeviceError>
        ensures written { Writes key bytes.now (told self.old) (told self.new) result }
        ensures counts { Counts (faults self.old) (faults self.new) result };

    /// Fills `out` from offset `at` of the key's bytes, and hands that many bytes out. After a
    /// failure `out` holds any bytes, and nothing else changed.
    fn read(&mut self, key: ChunkKey, at: u32, out: &mut [u8]) -> Result<(), DeviceError>
        requires { ForSome (told self.old) (λ held. LiesIn held key at (length out.old)) }
        ensures handed { Does (handing (length out.old)) (told self.old) (told self.new) result }
        ensures bytes { IfOk result (λ _. IfSome (told self.old) (λ held. out.new ≡ take (length out.old) (drop at (bytes_at held key)))) }
        ensures counts { Counts (faults self.old) (faults self.new) result }
        ensures no_memory { TakesNoMemory result };

    /// Takes a key away, or does nothing where it isn't there. After a failure nothing changed.
    fn remove(&mut self, key: ChunkKey) -> Result<(), DeviceError>
        ensures removed { Does (lacking key) (told self.old) (told self.new) result }
        ensures counts { Counts (faults self.old) (faults self.new) result }
        ensures no_memory { TakesNoMemory result };

    /// Lists each key with the length of its bytes, rising by key. It changes nothing but the
    /// count of faults.
    fn keys(&mut self) -> Result<KeySizes, DeviceError>
        ensures same { told self.new ≡ told self.old }
        ensures sizes { IfOk result (λ sizes. IfSome (told self.old) (λ held. sizes ≡ sizes_of held.contents)) }
        ensures rising { IfOk result (λ sizes. IfSome (told self.old) (λ _. IsStrictlySortedBy key_cmp (map (λ chunk. chunk.key) sizes))) }
        ensures counts { Counts (faults self.old) (faults self.new) result };

    /// Takes every key away and begins the next life; the last value of a life stays. After a
    /// failure nothing changed.
    fn wipe(&mut self) -> Result<(), DeviceError>
        ensures emptied { Does emptied (told self.old) (told self.new) result }
        ensures counts { Counts (faults self.old) (faults self.new) result }
        ensures no_memory { TakesNoMemory result };

    /// How often the server was emptied, plus one.
    fn life(&self) -> Life
        ensures { IfSome (told self.now) (λ held. result ≡ held.life) };
}
