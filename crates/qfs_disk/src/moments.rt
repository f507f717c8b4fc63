//! The bytes of a disk in memory, and how it remembers what they were, so that it can tell what a
//! crash may leave.
ghost use Rattle.std.specs.Prelude.{◌≡◌, ◌≤◌, ◌<◌, ◌^◌, length, OnOk, OnErr};
ghost use Rattle.qfs_disk.specs.Moments.{Past, now, then, after_write, after_cut, after_sync};

use std::alloc::AllocError;

/// Bytes in memory that had a past. On want of memory each call leaves bytes and past as they were.
pub trait Moments: Drop + Send + Sync {
    /// What was held at each moment, and what a crash then might have left.
    ghost past: { Self → Past };

    /// What is held now.
    fn bytes(&self) -> &[u8]
        ensures { result.now ≡ (now (past self.now)).bytes };

    /// Writes bytes at an offset, over what is there and past the end.
    fn write(&mut self, at: u64, bytes: &[u8]) -> Result<(), AllocError>
        requires { at ≤ length (now (past self.old)).bytes }
        ensures ok { OnOk result (
            past self.new ≡ then (after_write at bytes.now (now (past self.old))) (past self.old)) }
        ensures err { OnErr result (past self.new ≡ past self.old) }
        ensures fits { length (now (past self.new)).bytes < 2 ^ 64 };

    /// Cuts the bytes to a length.
    fn cut(&mut self, len: u64) -> Result<(), AllocError>
        requires { len ≤ length (now (past self.old)).bytes }
        ensures ok { OnOk result (
            past self.new ≡ then (after_cut len (now (past self.old))) (past self.old)) }
        ensures err { OnErr result (past self.new ≡ past self.old) };

    /// Settles what was written and cut.
    fn sync(&mut self) -> Result<(), AllocError>
        ensures ok { OnOk result (
            past self.new ≡ then (after_sync (now (past self.old))) (past self.old)) }
        ensures err { OnErr result (past self.new ≡ past self.old) };
}
