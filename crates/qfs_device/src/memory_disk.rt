//! Log disks that keep their bytes in memory.
ghost use Rattle.std.specs.Prelude.{◌≡◌, vec_len};

use crate::faults::{FailList, Faults, NeverFails};
use crate::log_disk::LogDisk;
use std::alloc::Global;

/// A log disk in memory.
#[derive(Drop)]
pub struct BytesDisk<F> {
    bytes: Vec<u8>,
    faults: F,
}

/// A log disk in memory whose calls fail by a list.
pub type MemoryDisk = BytesDisk<FailList>;

/// A log disk in memory that never fails.
pub type SureDisk = BytesDisk<NeverFails>;

impl BytesDisk<FailList> {
    /// An empty disk. `fails` are the numbers of the calls that fail, rising, counted from 1
    /// over all calls but `size`. It takes no memory.
    pub fn new(alloc: Global, fails: Vec<u64>) -> BytesDisk<FailList>
        ensures length { ⟦<BytesDisk<FailList> as LogDisk>⟧.length_of result ≡ 0 }
        ensures faults { ⟦<BytesDisk<FailList> as LogDisk>⟧.faults result ≡ 0 }
    {
        BytesDisk {
            bytes: Vec::new(alloc),
            faults: FailList::new(fails),
        }
    }
}

impl BytesDisk<NeverFails> {
    /// An empty disk. It takes no memory.
    pub fn new(alloc: Global) -> BytesDisk<NeverFails>
        ensures length { ⟦<BytesDisk<NeverFails> as LogDisk>⟧.length_of result ≡ 0 }
        ensures faults { ⟦<BytesDisk<NeverFails> as LogDisk>⟧.faults result ≡ 0 }
    {
        BytesDisk {
            bytes: Vec::new(alloc),
            faults: NeverFails,
        }
    }
}

impl<F: Faults> LogDisk for BytesDisk<F> {
    ghost length_of = { λ disk. vec_len disk.bytes };

    ghost faults = { λ disk. F.count disk.faults };

    fn size(&self) -> u64 {
        self.bytes.len() as u64
    }
}
