//! Log disks that keep their bytes in memory. They tell their contents and their crash images.
ghost use Rattle.std.specs.Prelude.{◌≡◌, ℕ, ◌+◌, ◌≤◌, [], List, true, IsTrue, length, take, drop};
ghost use Rattle.std.proofs.Common.{refl};
ghost use Rattle.qfs_disk.specs.Disk.{Only};
ghost use Rattle.qfs_disk.specs.Moments.{now, beginning, IsImage, LeftSince, reads, counts, only};

use crate::call_list::CallList;
use crate::log_disk::LogDisk;
use crate::moments::Moments;
use qfs_device::{DeviceError, FailList, Faults, NeverFails};
use std::alloc::Global;

/// A log disk in memory. A call that fails changes nothing but the count of faults.
#[derive(Drop)]
pub struct BytesDisk<F, M> {
    kept: M,
    handed_out: u64,
    faults: F,
}

/// A log disk in memory whose calls fail by a list. It keeps its writes, cuts and syncs.
pub type MemoryDisk = BytesDisk<FailList, CallList>;

/// A log disk in memory that never fails. It keeps its calls too.
pub type SureDisk = BytesDisk<NeverFails, CallList>;

impl BytesDisk<FailList, CallList> {
    /// An empty disk. `fails` are the numbers of the calls that fail, rising, counted from 1
    /// over all calls but `size`. It takes no memory.
    #[tactic(auto, using(crate::proofs::PastLaws::begins_empty))]
    pub fn new(alloc: Global, fails: Vec<u64>) -> BytesDisk<FailList, CallList>
        ensures length { ⟦<BytesDisk<FailList, CallList> as LogDisk>⟧.length_of result ≡ 0 }
        ensures faults { ⟦<BytesDisk<FailList, CallList> as LogDisk>⟧.faults result ≡ 0 }
        ensures tells { IsTrue (⟦<BytesDisk<FailList, CallList> as LogDisk>⟧.tells result) }
        ensures settled { Only [] (⟦<BytesDisk<FailList, CallList> as LogDisk>⟧.leaves result) }
    {
        BytesDisk {
            kept: CallList::new(alloc),
            handed_out: 0,
            faults: FailList::new(fails),
        }
    }
}

impl BytesDisk<NeverFails, CallList> {
    /// An empty disk. It takes no memory.
    #[tactic(auto, using(crate::proofs::PastLaws::begins_empty))]
    pub fn new(alloc: Global) -> BytesDisk<NeverFails, CallList>
        ensures length { ⟦<BytesDisk<NeverFails, CallList> as LogDisk>⟧.length_of result ≡ 0 }
        ensures faults { ⟦<BytesDisk<NeverFails, CallList> as LogDisk>⟧.faults result ≡ 0 }
        ensures tells { IsTrue (⟦<BytesDisk<NeverFails, CallList> as LogDisk>⟧.tells result) }
        ensures settled { Only [] (⟦<BytesDisk<NeverFails, CallList> as LogDisk>⟧.leaves result) }
    {
        BytesDisk {
            kept: CallList::new(alloc),
            handed_out: 0,
            faults: NeverFails,
        }
    }
}

// Fills `out` from the bytes at `from`.
fn copy_part(bytes: &[u8], from: usize, out: &mut [u8])
    requires { from + length out.old ≤ length bytes.now }
    ensures { out.new ≡ take (length out.old) (drop from bytes.now) }
{
    out.copy_from_slice(&bytes[from..from + out.len()]);
}

impl<F: Faults, M: Moments> LogDisk for BytesDisk<F, M> {
    ghost length_of = { λ disk. length (now (M.past disk.kept)).bytes };

    ghost faults = { λ disk. F.count disk.faults };

    ghost tells = { λ disk. true };

    ghost content = { λ disk. (now (M.past disk.kept)).bytes };

    ghost handed_out = { λ disk. disk.handed_out };

    ghost clock = { λ disk. length (M.past disk.kept).later };

    ghost leaves = { λ disk c. IsImage (now (M.past disk.kept)) c };

    ghost left_since = { λ disk t c. LeftSince (M.past disk.kept) t c };

    ghost told_length = { λ disk told. refl };

    ghost reads_an_image = { λ disk told. reads (now (M.past disk.kept)) };

    ghost counts_now = { λ disk t c told le is. counts (M.past disk.kept) t c le is };

    ghost only_now = { λ disk c told left. only (M.past disk.kept) c left };

    fn size(&self) -> u64 {
        self.kept.bytes().len() as u64
    }

    fn read(&mut self, at: u64, out: &mut [u8]) -> Result<(), DeviceError> {
        if self.faults.next_fails() {
            return Err(DeviceError::Failed);
        }
        copy_part(self.kept.bytes(), at as usize, out);
        self.handed_out = self.handed_out.saturating_add(out.len() as u64);
        Ok(())
    }

    fn write_at(&mut self, at: u64, bytes: &[u8]) -> Result<(), DeviceError> {
        if self.faults.next_fails() {
            let _size = self.size();
            return Err(DeviceError::Failed);
        }
        self.kept.write(at, bytes)?;
        Ok(())
    }

    fn cut(&mut self, len: u64) -> Result<(), DeviceError> {
        if self.faults.next_fails() {
            return Err(DeviceError::Failed);
        }
        self.kept.cut(len)?;
        Ok(())
    }

    fn sync(&mut self) -> Result<(), DeviceError> {
        if self.faults.next_fails() {
            return Err(DeviceError::Failed);
        }
        self.kept.sync()?;
        Ok(())
    }
}
