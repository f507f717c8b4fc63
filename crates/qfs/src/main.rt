//! The program: `qfs step N` runs a script over chunk servers in memory and writes its replies,
//! the history of its files and the order of its steps.
#![tactic(auto)]

ghost use Rattle.std.specs.Prelude.{All, IfOk};
ghost use Rattle.qfs_nodes.specs.Nodes.{IsNew};

use qfs_device::{ChunkDevice, MetaDisks, NoGate, StdSink, StdSource, SureDevice, SureDisk};
use qfs_driver::top;
use std::alloc::{AllocError, Global};
use std::io::Write;
use std::process::ExitCode;
use std::{env, io};

/// How many devices there are for chunk servers.
const DEVICES: usize = 64;

fn main(rt: HostRuntime) -> io::Result<ExitCode> {
    let alloc = rt.alloc();
    let mut words = Vec::new(alloc);
    for word in env::args(&rt)?.skip(1) {
        words.push(word)?;
    }
    let mut devices = memory_devices(alloc)?;
    let mut disks = MetaDisks {
        left: Some(SureDisk::new(alloc)),
        right: Some(SureDisk::new(alloc)),
    };
    let mut script = StdSource::new(rt.stdin());
    let mut out = StdSink::new(rt.stdout());
    let status = top(
        alloc,
        words.as_slice(),
        &mut script,
        &mut out,
        &mut devices,
        &mut disks,
        &NoGate,
    );
    let mut text = Vec::new(alloc);
    status.push_text(&mut text)?;
    if !text.is_empty() {
        text.push(b'\n')?;
        rt.stderr().write_all(text.as_slice())?;
    }
    Ok(ExitCode::from(status.code()))
}

/// New devices in memory, one for each server that there can be.
fn memory_devices(alloc: Global) -> Result<Vec<SureDevice>, AllocError>
    ensures { IfOk result (λ devices. All (IsNew ⟦<SureDevice as ChunkDevice>⟧.told) devices.items) }
{
    let mut devices = Vec::new(alloc);
    for _server in 0..DEVICES {
        devices.push(SureDevice::new(alloc))?;
    }
    Ok(devices)
}
