//! A run on one thread, from the script's bytes to the text that is written.
ghost use Rattle.std.specs.Prelude.{◌≡◌, ◌<◌, ◌≤◌, All, length};
ghost use Rattle.qfs_driver.specs.Run.{AllRemain};
ghost use Rattle.qfs_base.specs.declared.script.Script.{Script};
ghost use Rattle.qfs_driver.specs.Reading.{TellsScript};
ghost use Rattle.qfs_driver.specs.Serial.{EndsSo, IsTooFew, OnUntouched, OnUnwritten, number_of_plan, outside_of};
ghost use Rattle.qfs_nodes.specs.Nodes.{IsNew};

use crate::reading::read_script;
use crate::run::run;
use crate::status::Status;
use qfs_device::{ChunkDevice, LogDisk, MetaDisks, Sink, Source, write_all};
use std::alloc::Global;

/// Whose steps a run takes.
#[derive(Clone, Copy, PartialEq, Eq)]
pub enum Plan {
    /// Those of actors that are drawn from a number.
    Drawn(u64),
}

/// Runs the script that the source gives over devices and disks, and writes its text. The device
/// of server s is `devices[s - 1]`. As far as the devices tell what they hold, all are to be new.
///
/// What a status says, where a count that rose may also be one that stands at its last value:
/// - Ok: the source was read to its end, and the text of its script's run was written whole.
/// - WriteFault: the same, but the count of the sink's faults rose, and a proper first part of the
///   text was written.
/// - DeviceFault: the count of faults of this server's device rose; as far as the servers' devices
///   tell, in a Put or a Fetch, the last step of an order that fits the script and is drawn.
/// - TooFewDevices: a script was read whole that has more servers than there are devices. Where the
///   source tells that it has such a script, no other status comes but ReadFault and NoMemory.
/// - BadScript: the source was read to its end, and this line is the first that isn't of the forms
///   built so far; or, at line 0, it gave more than 16,777,216 bytes.
/// - ReadFault: the count of the source's faults rose.
/// - NoMemory: memory was wanting. It may stand in place of each of the others. All devices are as
///   they came; or, as far as the servers' devices tell, they stand after an order that fits the
///   script that was read.
///
/// Nothing is written but with Ok and WriteFault. The counts of faults of source and sink haven't
/// fallen. With each status every device stands in its
/// place: it tells what it holds exactly where it told it before, and its count of faults hasn't
/// fallen. Those above the script's servers are as they came; with ReadFault, BadScript and
/// TooFewDevices, all. The disks are always as they came.
pub fn serial<S: Source, K: Sink, D: ChunkDevice, L: LogDisk>(
    alloc: Global,
    plan: Plan,
    script: &mut S,
    out: &mut K,
    devices: &mut Vec<D>,
    disks: &mut MetaDisks<L>,
) -> Status
    requires { All (IsNew D.told) devices.old.items }
    ensures ends { EndsSo D.told D.faults (number_of_plan plan)
        (outside_of S.left S.faults K.written K.faults script.old out.old devices.old.items)
        (outside_of S.left S.faults K.written K.faults script.new out.new devices.new.items)
        result }
    ensures too_few { (asked : Script) → TellsScript (S.left script.old) asked
        → length devices.old.items < asked.servers
        → IsTooFew asked.servers (length devices.old.items) result }
    ensures source_count { S.faults script.old ≤ S.faults script.new }
    ensures sink_count { K.faults out.old ≤ K.faults out.new }
    ensures unwritten { OnUnwritten result (out.new ≡ out.old) }
    ensures untouched { OnUntouched result (devices.new ≡ devices.old) }
    ensures places { length devices.new.items ≡ length devices.old.items }
    ensures kept { AllRemain D.told D.faults devices.old.items devices.new.items }
    ensures disks { disks.new ≡ disks.old }
{
    match plan {
        Plan::Drawn(number) => drawn(alloc, number, script, out, devices, disks),
    }
}

/// The same, by the order that is drawn from a number.
#[tactic(auto, using(crate::proofs::Remaining::same_remain))]
fn drawn<S: Source, K: Sink, D: ChunkDevice, L: LogDisk>(
    alloc: Global,
    number: u64,
    script: &mut S,
    out: &mut K,
    devices: &mut Vec<D>,
    disks: &mut MetaDisks<L>,
) -> Status
    requires { All (IsNew D.told) devices.old.items }
    ensures ends { EndsSo D.told D.faults number
        (outside_of S.left S.faults K.written K.faults script.old out.old devices.old.items)
        (outside_of S.left S.faults K.written K.faults script.new out.new devices.new.items)
        result }
    ensures source_count { S.faults script.old ≤ S.faults script.new }
    ensures sink_count { K.faults out.old ≤ K.faults out.new }
    ensures unwritten { OnUnwritten result (out.new ≡ out.old) }
    ensures untouched { OnUntouched result (devices.new ≡ devices.old) }
    ensures places { length devices.new.items ≡ length devices.old.items }
    ensures kept { AllRemain D.told D.faults devices.old.items devices.new.items }
    ensures disks { disks.new ≡ disks.old }
{
    // Reading comes first, then the count of devices, the run and the writing. No clause says so.
    let script = match read_script(alloc, script) {
        Ok(script) => script,
        Err(status) => return status,
    };
    if script.servers as usize > devices.len() {
        return Status::TooFewDevices {
            servers: script.servers,
            devices: devices.len() as u64,
        };
    }
    match run(alloc, number, &script, devices, disks) {
        Ok(text) => match write_all(out, text.as_slice()) {
            Ok(()) => Status::Ok,
            Err(_) => Status::WriteFault,
        },
        Err(status) => status,
    }
}
