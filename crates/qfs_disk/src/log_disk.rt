//! The disks that keep the metaserver's log and its checkpoints.
ghost use Rattle.std.specs.Prelude.{◌≡◌, ℕ, ◌+◌, ◌≤◌, ◌<◌, ◌^◌, List, Bool, IsTrue, length, take, drop, min, OnOk, OnErr};
ghost use Rattle.qfs_base.specs.Sizes.{LAST_U64};
ghost use Rattle.qfs_disk.specs.Disk.{AllOf, WithoutMemory, Torn, CutShort, Same, Only, Spoils, Writes, Cuts, WritesLength, CutsLength};
ghost use Rattle.qfs_device.specs.Fault.{Counts, TakesNoMemory};
ghost use Rattle.qfs_disk.specs.Moves.{Moves};

use qfs_device::DeviceError;

/// A disk for the metaserver's log: a file of bytes.
///
/// A disk may tell clauses its contents, and then it also tells what a crash may leave: `leaves`
/// now, and `left_since` at some moment since a reading of its clock. Whether it tells them stays
/// the same through every call. It counts its faults: a call that answers `Failed` raises the
/// count by one, or leaves it at the last value of 64 bits, and every other call leaves it as it
/// was.
///
/// Between two syncs that succeed each range that was written may hold any bytes after a crash, and
/// so may what lies past the least length that the file had since the first of them; the length is
/// then any from the least to the greatest.
pub trait LogDisk: Drop + Send + Sync {
    /// How many bytes the file has. Every disk tells that.
    ghost length_of: { Self → ℕ };

    /// How often the disk has failed.
    ghost faults: { Self → ℕ };

    /// Whether the disk tells its contents. All that follows is meant where it does.
    ghost tells: { Self → Bool };

    /// What a read gives.
    ghost content: { Self → List ℕ };

    /// How many bytes its reads have handed out: a count in 64 bits, which stays at its last value.
    ghost handed_out: { Self → ℕ };

    /// A clock that never goes back.
    ghost clock: { Self → ℕ };

    /// What a crash now may leave.
    ghost leaves: { Self → List ℕ → Type 0 };

    /// What a crash at some moment since a reading of the clock might have left.
    ghost left_since: { Self → ℕ → List ℕ → Type 0 };

    /// The length of the file, in bytes.
    fn size(&self) -> u64
        ensures { result ≡ length_of self.now };

    /// Fills `out` from offset `at`, and hands that many bytes out. After a failure `out` holds any
    /// bytes, and nothing else changed.
    fn read(&mut self, at: u64, out: &mut [u8]) -> Result<(), DeviceError>
        requires { at + length out.old ≤ length_of self.old }
        ensures tells { tells self.new ≡ tells self.old }
        ensures size { length_of self.new ≡ length_of self.old }
        ensures same { IsTrue (tells self.old) → content self.new ≡ content self.old }
        ensures bytes { OnOk result (IsTrue (tells self.old) →
            out.new ≡ take (length out.old) (drop at (content self.old))) }
        ensures handed { OnOk result (
            handed_out self.new ≡ min (handed_out self.old + length out.old) LAST_U64) }
        ensures not_handed { OnErr result (handed_out self.new ≡ handed_out self.old) }
        ensures crash { IsTrue (tells self.old) →
            Moves clock leaves left_since Same self.old self.new }
        ensures leaves { IsTrue (tells self.old) → AllOf (leaves self.old) (leaves self.new) }
        ensures counts { Counts (faults self.old) (faults self.new) result }
        ensures no_memory { TakesNoMemory result };

    /// Writes bytes at an offset of at most the length, over what is there and past the end. A
    /// failure leaves any bytes in that range, and a length from the old one to that of the
    /// finished write; want of memory changes nothing.
    fn write_at(&mut self, at: u64, bytes: &[u8]) -> Result<(), DeviceError>
        requires { at ≤ length_of self.old }
        ensures tells { tells self.new ≡ tells self.old }
        ensures size { WritesLength at (length bytes.now) (length_of self.old) (length_of self.new) result }
        ensures fits { length_of self.new < 2 ^ 64 }
        ensures bytes { IsTrue (tells self.old) →
            Writes at bytes.now (content self.old) (content self.new) result }
        ensures crash { IsTrue (tells self.old) →
            Moves clock leaves left_since (Spoils (Torn at (length bytes.now)) result)
            self.old self.new }
        ensures leaves { WithoutMemory result (IsTrue (tells self.old)
            → AllOf (leaves self.old) (leaves self.new)) }
        ensures handed { handed_out self.new ≡ handed_out self.old }
        ensures counts { Counts (faults self.old) (faults self.new) result };

    /// Cuts the file to a length of at most its own. A failure leaves the old or the new length;
    /// want of memory changes nothing. Until a sync a crash may leave any longer file up to the old
    /// length, with any bytes in the part that was cut away.
    fn cut(&mut self, len: u64) -> Result<(), DeviceError>
        requires { len ≤ length_of self.old }
        ensures tells { tells self.new ≡ tells self.old }
        ensures size { CutsLength len (length_of self.old) (length_of self.new) result }
        ensures bytes { IsTrue (tells self.old) →
            Cuts len (content self.old) (content self.new) result }
        ensures crash { IsTrue (tells self.old) →
            Moves clock leaves left_since (Spoils (CutShort len) result) self.old self.new }
        ensures leaves { WithoutMemory result (IsTrue (tells self.old)
            → AllOf (leaves self.old) (leaves self.new)) }
        ensures handed { handed_out self.new ≡ handed_out self.old }
        ensures counts { Counts (faults self.old) (faults self.new) result };

    /// Settles what was written and cut: once it succeeds, a crash leaves what a read gives.
    /// Whatever it answers, the length and what a read gives stay.
    fn sync(&mut self) -> Result<(), DeviceError>
        ensures tells { tells self.new ≡ tells self.old }
        ensures size { length_of self.new ≡ length_of self.old }
        ensures bytes { IsTrue (tells self.old) → content self.new ≡ content self.old }
        ensures durable { OnOk result (IsTrue (tells self.old) →
            Only (content self.old) (leaves self.new)) }
        ensures crash { IsTrue (tells self.old) →
            Moves clock leaves left_since Same self.old self.new }
        ensures leaves { WithoutMemory result (IsTrue (tells self.old)
            → AllOf (leaves self.old) (leaves self.new)) }
        ensures handed { handed_out self.new ≡ handed_out self.old }
        ensures counts { Counts (faults self.old) (faults self.new) result };

    /// The length is that of the bytes.
    ghost told_length: { (disk : Self) → IsTrue (tells disk)
        → length (content disk) ≡ length_of disk };

    /// What a read gives is one of the images.
    ghost reads_an_image: { (disk : Self) → IsTrue (tells disk) → leaves disk (content disk) };

    /// This moment is one of those since an earlier one.
    ghost counts_now: { (disk : Self) (t : ℕ) (c : List ℕ) → IsTrue (tells disk) → t ≤ clock disk
        → leaves disk c → left_since disk t c };

    /// Since this moment there is no other.
    ghost only_now: { (disk : Self) (c : List ℕ) → IsTrue (tells disk)
        → left_since disk (clock disk) c → leaves disk c };
}
