//! A script is run over devices and disks that are handed in, and its text is made.
ghost use Rattle.std.specs.Prelude.{◌≡◌, ◌≤◌, length, All, IfOk, IfErr};
ghost use Rattle.qfs_driver.specs.Run.{PrintsRun, StayInPlace, StopsOver};
ghost use Rattle.qfs_driver.specs.Scripts.{IsReadScript};
ghost use Rattle.qfs_nodes.specs.Nodes.{IsNew};

use crate::output::text_of;
use crate::play::play;
use crate::status::Status;
use qfs_base::script::Script;
use qfs_device::{ChunkDevice, LogDisk, MetaDisks};
use qfs_world::{Parts, World};
use std::alloc::Global;
use std::mem;

/// Runs a script by the order that is drawn from a number, and gives its text. The error is why
/// the run stopped early. In either case the devices stand in their places again.
#[tactic(auto, using(crate::proofs::Remaining::same_stay))]
pub fn run<D: ChunkDevice, L: LogDisk>(
    alloc: Global,
    number: u64,
    script: &Script,
    devices: &mut Vec<D>,
    disks: &mut MetaDisks<L>,
) -> Result<Vec<u8>, Status>
    requires read { IsReadScript script.now }
    requires enough { script.now.servers ≤ length devices.old.items }
    requires fresh { All (IsNew D.told) devices.old.items }
    ensures text { IfOk result (λ text. PrintsRun D.told D.faults number script.now
        devices.old.items devices.new.items text.items) }
    ensures err { IfErr result (StopsOver D.told D.faults number script.now
        devices.old.items devices.new.items) }
    ensures places { StayInPlace D.told D.faults script.now.servers
        devices.old.items devices.new.items }
    ensures disks { disks.new ≡ disks.old }
{
    let taken = mem::replace(devices, Vec::new(alloc));
    let no_disks = MetaDisks {
        left: None,
        right: None,
    };
    let taken_disks = mem::replace(disks, no_disks);
    let mut world = match World::new(alloc, script, taken, taken_disks) {
        Ok(world) => world,
        Err(error) => {
            *devices = error.devices;
            *disks = error.disks;
            return Err(Status::NoMemory);
        }
    };
    let played = play(&mut world, number);
    match world.into_parts() {
        Ok(parts) => {
            let Parts {
                devices: given_back,
                disks: disks_back,
                image,
                order,
                replies,
            } = parts;
            *devices = given_back;
            *disks = disks_back;
            played?;
            match text_of(alloc, replies.as_slice(), image.history.as_slice(), &order) {
                Ok(text) => Ok(text),
                Err(_) => Err(Status::NoMemory),
            }
        }
        Err(error) => {
            *devices = error.devices;
            *disks = error.disks;
            Err(Status::NoMemory)
        }
    }
}
