//! Reads a disk whole.
ghost use Rattle.std.specs.Prelude.{◌≡◌, ◌+◌, IsTrue, min, IfOk, OnOk};
ghost use Rattle.qfs_base.specs.Sizes.{LAST_U64};
ghost use Rattle.qfs_disk.specs.Disk.{AllOf, Same};
ghost use Rattle.qfs_disk.specs.Moves.{Moves};
ghost use Rattle.qfs_device.specs.Fault.{Counts};

use qfs_device::DeviceError;
use qfs_disk::LogDisk;
use std::alloc::Global;

/// The bytes of a disk, all of them, by one read. It leaves the disk and what a crash may leave as
/// they were, but for the count of bytes that were handed out.
pub fn read_whole<L: LogDisk>(alloc: Global, disk: &mut L) -> Result<Vec<u8>, DeviceError>
    ensures bytes { IfOk result (λ bytes. IsTrue (L.tells disk.old)
        → bytes.items ≡ L.content disk.old) }
    ensures tells { L.tells disk.new ≡ L.tells disk.old }
    ensures size { L.length_of disk.new ≡ L.length_of disk.old }
    ensures same { IsTrue (L.tells disk.old) → L.content disk.new ≡ L.content disk.old }
    ensures handed { OnOk result (L.handed_out disk.new
        ≡ min (L.handed_out disk.old + L.length_of disk.old) LAST_U64) }
    ensures crash { IsTrue (L.tells disk.old)
        → Moves L.clock L.leaves L.left_since Same disk.old disk.new }
    ensures leaves { IsTrue (L.tells disk.old) → AllOf (L.leaves disk.old) (L.leaves disk.new) }
    ensures counts { Counts (L.faults disk.old) (L.faults disk.new) result }
{
    let size = disk.size() as usize;
    let mut bytes = vec![in alloc; 0u8; size]?;
    disk.read(0, &mut bytes)?;
    Ok(bytes)
}
