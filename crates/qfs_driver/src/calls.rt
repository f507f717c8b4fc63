//! The call that the program makes.
ghost use Rattle.std.specs.Prelude.{◌≡◌, ◌↔◌, ◌<◌, ◌≤◌, ℕ, All, None, Some, length, map, string_bytes};
ghost use Rattle.qfs_driver.specs.Run.{AllRemain};
ghost use Rattle.qfs_base.specs.declared.script.Script.{Script};
ghost use Rattle.qfs_driver.specs.Reading.{TellsScript};
ghost use Rattle.qfs_driver.specs.Serial.{EndsSo, IsTooFew, OnUntouched, OnUnwritten, outside_of};
ghost use Rattle.qfs_driver.specs.Words.{seed_of};
ghost use Rattle.qfs_nodes.specs.Nodes.{IsNew};

use crate::one_thread::{Plan, serial};
use crate::status::Status;
use crate::words::seed_from;
use qfs_device::{ChunkDevice, Gate, LogDisk, MetaDisks, Sink, Source};
use std::alloc::Global;

/// Does what the words say: `step N` runs the script that the source gives, by the order that is
/// drawn from N, and writes its text, as `serial` does. Other words are answered Usage, and these
/// alone; then nothing is read or written, and devices and disks are as they came.
///
/// A script that has more servers than there are devices is answered TooFewDevices, ReadFault or
/// NoMemory, as far as the source tells what it has; and TooFewDevices comes for no other script.
///
/// As far as the devices tell what they hold, all are to be new.
#[tactic(auto, using(crate::proofs::Remaining::same_remain))]
pub fn top<S: Source, K: Sink, D: ChunkDevice, L: LogDisk, G: Gate>(
    alloc: Global,
    words: &[String],
    script: &mut S,
    out: &mut K,
    devices: &mut Vec<D>,
    disks: &mut MetaDisks<L>,
    gate: &G,
) -> Status
    requires { All (IsNew D.told) devices.old.items }
    ensures usage { (result ≡ Status.Usage) ↔ (seed_of (map string_bytes words.now) ≡ None) }
    ensures unread { result ≡ Status.Usage → script.new ≡ script.old }
    ensures ends { (number : ℕ) → seed_of (map string_bytes words.now) ≡ Some number
        → EndsSo D.told D.faults number
        (outside_of S.left S.faults K.written K.faults script.old out.old devices.old.items)
        (outside_of S.left S.faults K.written K.faults script.new out.new devices.new.items)
        result }
    ensures too_few { (result ≡ Status.Usage → ⊥)
        → (asked : Script) → TellsScript (S.left script.old) asked
        → length devices.old.items < asked.servers
        → IsTooFew asked.servers (length devices.old.items) result }
    ensures source_count { S.faults script.old ≤ S.faults script.new }
    ensures sink_count { K.faults out.old ≤ K.faults out.new }
    ensures unwritten { OnUnwritten result (out.new ≡ out.old) }
    ensures untouched { OnUntouched result (devices.new ≡ devices.old) }
    ensures places { length devices.new.items ≡ length devices.old.items }
    ensures kept { AllRemain D.told D.faults devices.old.items devices.new.items }
    ensures disks { disks.new ≡ disks.old }
{
    let _gate = gate;
    match seed_from(words) {
        Some(number) => serial(alloc, Plan::Drawn(number), script, out, devices, disks),
        None => Status::Usage,
    }
}
