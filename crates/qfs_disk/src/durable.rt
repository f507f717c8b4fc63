//! A write or a cut with its sync, as one step whose contract has the form of one call.
ghost use Rattle.std.specs.Prelude.{◌≡◌, ◌+◌, ◌≤◌, ◌<◌, ◌^◌, IsTrue, length, take, max, OnOk};
ghost use Rattle.qfs_disk.specs.Disk.{Torn, CutShort, Only, written};
ghost use Rattle.qfs_device.specs.Fault.{Counts};
ghost use Rattle.qfs_disk.specs.Moves.{Moves};

use crate::log_disk::LogDisk;
use qfs_device::DeviceError;

/// Writes, and waits until a crash leaves what was written.
pub fn write_durably<L: LogDisk>(disk: &mut L, at: u64, bytes: &[u8]) -> Result<(), DeviceError>
    requires { at ≤ L.length_of disk.old }
    ensures tells { L.tells disk.new ≡ L.tells disk.old }
    ensures size { OnOk result (
        L.length_of disk.new ≡ max (L.length_of disk.old) (at + length bytes.now)) }
    ensures no_longer { L.length_of disk.new ≤ max (L.length_of disk.old) (at + length bytes.now) }
    ensures fits { L.length_of disk.new < 2 ^ 64 }
    ensures longer { L.length_of disk.old ≤ L.length_of disk.new }
    ensures bytes { OnOk result (IsTrue (L.tells disk.old)
        → L.content disk.new ≡ written at bytes.now (L.content disk.old)) }
    ensures durable { OnOk result (IsTrue (L.tells disk.old)
        → Only (L.content disk.new) (L.leaves disk.new)) }
    ensures crash { IsTrue (L.tells disk.old)
        → Moves L.clock L.leaves L.left_since (Torn at (length bytes.now)) disk.old disk.new }
    ensures counts { Counts (L.faults disk.old) (L.faults disk.new) result }
{
    disk.write_at(at, bytes)?;
    disk.sync()
}

/// Cuts, and waits until a crash leaves the shorter file.
pub fn cut_durably<L: LogDisk>(disk: &mut L, len: u64) -> Result<(), DeviceError>
    requires { len ≤ L.length_of disk.old }
    ensures tells { L.tells disk.new ≡ L.tells disk.old }
    ensures size { OnOk result (L.length_of disk.new ≡ len) }
    ensures no_shorter { len ≤ L.length_of disk.new }
    ensures bytes { OnOk result (IsTrue (L.tells disk.old)
        → L.content disk.new ≡ take len (L.content disk.old)) }
    ensures durable { OnOk result (IsTrue (L.tells disk.old)
        → Only (L.content disk.new) (L.leaves disk.new)) }
    ensures crash { IsTrue (L.tells disk.old)
        → Moves L.clock L.leaves L.left_since (CutShort len) disk.old disk.new }
    ensures counts { Counts (L.faults disk.old) (L.faults disk.new) result }
{
    disk.cut(len)?;
    disk.sync()
}
