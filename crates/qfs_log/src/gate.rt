//! A gate on a disk. Behind a closed gate nothing counts; it is opened by a write of
//! its own once what stands behind it is durable.
ghost use Rattle.std.specs.Prelude.{◌≡◌, ◌≢◌, ◌+◌, ◌≤◌, ◌<◌, ◌^◌, ◌⊎◌, ℕ, Bool, List, [], ◌∷◌, ◌++◌, true, false, IsTrue, length, max, OnOk, OnErr};
ghost use Rattle.qfs_disk.specs.Disk.{Torn, Same, Only, written};
ghost use Rattle.qfs_device.specs.Fault.{Counts};
ghost use Rattle.qfs_disk.specs.Moves.{Moves};
ghost use Rattle.qfs_log.specs.Gates.{WhereGate, WhereRest, Guarded, Staged, equals, GateWas, HasGate, AtRest, Opened};

use qfs_device::DeviceError;
use qfs_disk::{LogDisk, cut_durably, write_durably};

pub const OPEN: u8 = 1;

pub const CLOSED: u8 = 0;

/// Writes a gate, and waits until it is durable. `settled` says afterwards whether every crash
/// leaves the gate closed.
pub fn set_gate<L: LogDisk>(
    disk: &mut L,
    gate: u64,
    byte: u8,
    settled: &mut bool,
) -> Result<(), DeviceError>
    requires { gate ≤ L.length_of disk.old }
    ensures tells { L.tells disk.new ≡ L.tells disk.old }
    ensures size { OnOk result (L.length_of disk.new ≡ max (L.length_of disk.old) (gate + 1)) }
    ensures longer { L.length_of disk.old ≤ L.length_of disk.new }
    ensures content { OnOk result (IsTrue (L.tells disk.old)
        → L.content disk.new ≡ written gate (byte ∷ []) (L.content disk.old)) }
    ensures durable { OnOk result (IsTrue (L.tells disk.old)
        → Only (L.content disk.new) (L.leaves disk.new)) }
    ensures settled { OnOk result (byte ≢ 1 → settled.new ≡ true) }
    ensures untouched { OnErr result (settled.new ≡ true → (settled.old ≡ true)
        × (IsTrue (L.tells disk.old)
        → Moves L.clock L.leaves L.left_since Same disk.old disk.new)) }
    ensures crash { IsTrue (L.tells disk.old)
        → Moves L.clock L.leaves L.left_since (Torn gate 1) disk.old disk.new }
    ensures counts { Counts (L.faults disk.old) (L.faults disk.new) result }
{
    match disk.write_at(gate, &[byte]) {
        Ok(()) => {}
        Err(DeviceError::Failed) => {
            *settled = false;
            return Err(DeviceError::Failed);
        }
        Err(DeviceError::NoMemory) => return Err(DeviceError::NoMemory),
    }
    *settled = false;
    disk.sync()?;
    *settled = byte != OPEN;
    Ok(())
}

/// Closes a gate that isn't settled.
pub fn close_gate<L: LogDisk>(
    disk: &mut L,
    gate: u64,
    settled: &mut bool,
) -> Result<(), DeviceError>
    requires inside { gate ≤ L.length_of disk.old }
    requires there { settled.old ≡ true → gate < L.length_of disk.old }
    ensures tells { L.tells disk.new ≡ L.tells disk.old }
    ensures there { settled.new ≡ true → gate < L.length_of disk.new }
    ensures longer { L.length_of disk.old ≤ L.length_of disk.new }
    ensures settled { OnOk result (settled.new ≡ true) }
    ensures stays { settled.old ≡ true → settled.new ≡ true }
    ensures gate { WhereGate (L.tells disk.old) (L.leaves disk.old) settled.old gate
        (λ front test. HasGate (L.leaves disk.new) settled.new front test) }
    ensures crash { WhereGate (L.tells disk.old) (L.leaves disk.old) settled.old gate
        (λ front test. Moves L.clock L.leaves L.left_since
        (λ _ c. GateWas settled.old front test c) disk.old disk.new) }
    ensures counts { Counts (L.faults disk.old) (L.faults disk.new) result }
{
    if *settled {
        return Ok(());
    }
    set_gate(disk, gate, CLOSED, settled)
}

/// Closes a gate that isn't settled, and cuts what stands behind it.
pub fn clear_gate<L: LogDisk>(
    disk: &mut L,
    gate: u64,
    settled: &mut bool,
) -> Result<(), DeviceError>
    requires inside { gate ≤ L.length_of disk.old }
    requires there { settled.old ≡ true → gate < L.length_of disk.old }
    requires fits { gate + 1 < 2 ^ 64 }
    ensures tells { L.tells disk.new ≡ L.tells disk.old }
    ensures size { OnOk result (L.length_of disk.new ≡ gate + 1) }
    ensures inside { gate ≤ L.length_of disk.new }
    ensures behind { gate < L.length_of disk.old → gate < L.length_of disk.new }
    ensures there { settled.new ≡ true → gate < L.length_of disk.new }
    ensures settled { OnOk result (settled.new ≡ true) }
    ensures stays { settled.old ≡ true → settled.new ≡ true }
    ensures rest { OnOk result (WhereGate (L.tells disk.old) (L.leaves disk.old) settled.old gate
        (λ front test. AtRest (L.leaves disk.new) (L.content disk.new) front)) }
    ensures gate { WhereGate (L.tells disk.old) (L.leaves disk.old) settled.old gate
        (λ front test. HasGate (L.leaves disk.new) settled.new front test) }
    ensures crash { WhereGate (L.tells disk.old) (L.leaves disk.old) settled.old gate
        (λ front test. Moves L.clock L.leaves L.left_since
        (λ _ c. GateWas settled.old front test c) disk.old disk.new) }
    ensures counts { Counts (L.faults disk.old) (L.faults disk.new) result }
{
    close_gate(disk, gate, settled)?;
    cut_durably(disk, gate + 1)
}

/// Writes a tail behind a closed gate that ends the disk, and opens the gate once the tail is
/// durable.
pub fn write_behind_gate<L: LogDisk>(
    disk: &mut L,
    gate: u64,
    settled: &mut bool,
    tail: &[u8],
) -> Result<(), DeviceError>
    requires inside { gate < L.length_of disk.old }
    requires fits { gate + 1 < 2 ^ 64 }
    requires settled { settled.old ≡ true }
    ensures tells { L.tells disk.new ≡ L.tells disk.old }
    ensures size { OnOk result (
        L.length_of disk.new ≡ max (L.length_of disk.old) (gate + 1 + length tail.now)) }
    ensures fits { OnOk result (L.length_of disk.new < 2 ^ 64) }
    ensures there { gate < L.length_of disk.new }
    ensures open { OnOk result (WhereRest (L.tells disk.old) (L.leaves disk.old)
        (L.content disk.old) gate
        (λ front. Opened (L.leaves disk.new) (L.content disk.new) front tail.now)) }
    ensures gate { OnErr result (WhereRest (L.tells disk.old) (L.leaves disk.old)
        (L.content disk.old) gate
        (λ front. HasGate (L.leaves disk.new) settled.new front (equals tail.now))) }
    ensures crash { WhereRest (L.tells disk.old) (L.leaves disk.old) (L.content disk.old) gate
        (λ front. Moves L.clock L.leaves L.left_since (λ _ c. Guarded front c
        ⊎ Staged front (equals tail.now) c) disk.old disk.new) }
    ensures counts { Counts (L.faults disk.old) (L.faults disk.new) result }
{
    write_durably(disk, gate + 1, tail)?;
    set_gate(disk, gate, OPEN, settled)
}
