//! Runs through the program's call, over sources, sinks and devices in memory.
ghost use Rattle.std.specs.Prelude.{All, IfOk};
ghost use Rattle.qfs_nodes.specs.Nodes.{IsNew};

use qfs_base::script::ScriptCause;
use qfs_device::{
    ChunkDevice, MemoryDevice, MemorySink, MemorySource, MetaDisks, NoGate, SureDisk,
};
use qfs_driver::{Status, top};
use std::alloc::{AllocError, Global};
use std::test::Fail;

/// A put and a get of five bytes, on nine servers.
const FIRST: &[u8] =
    b"qfs 1\nlayout 16 2\nservers 9\nphase\nactor 1\nput /a hex 0102030405\nget /a\n";

/// What it prints.
const FIRST_TEXT: &[u8] =
    b"1 1 at 1 stored 5\n1 2 at 2 read 5 hex 0102030405\nhistory 0 created 1 /a\nhistory 1 closed 1 by 1 1\norder 1x28\n";

/// A path that is there, one that isn't, and two puts of one path.
const REFUSALS: &[u8] =
    b"qfs 1\nlayout 16 2\nservers 10\nphase\nactor 1\nput /a hex 01\nput /a hex 02\nget /b\nget /a";

const REFUSALS_TEXT: &[u8] =
    b"1 1 at 1 stored 1\n1 2 at 2 exists\n1 3 at 2 missing\n1 4 at 2 read 1 hex 01\nhistory 0 created 1 /a\nhistory 1 closed 1 by 1 1\norder 1x30\n";

/// A script whose second line has a stripe that isn't a power of two.
const BAD_STRIPE: &[u8] = b"qfs 1\nlayout 24 2\nservers 9\nphase\nactor 1\nput /a hex 01\n";

/// Which calls fail: those of the source, of the sink, and the first one of a device; and how many
/// bytes the sink has room for.
#[derive(Clone, Copy)]
struct Faults {
    source: Option<u64>,
    sink: Option<u64>,
    device: usize,
    room: usize,
}

/// Nothing fails, and there is room.
const NONE: Faults = Faults {
    source: None,
    sink: None,
    device: 0,
    room: 1000,
};

/// How a run ended, and what it wrote.
#[derive(Drop)]
struct Ran {
    status: Status,
    text: Vec<u8>,
}

/// The number of a call, if one is to fail.
fn calls(alloc: Global, call: Option<u64>) -> Result<Vec<u64>, AllocError> {
    let mut fails = Vec::new(alloc);
    if let Some(call) = call {
        fails.push(call)?;
    }
    Ok(fails)
}

/// A new device in memory.
fn device(alloc: Global, fails: Vec<u64>) -> MemoryDevice
    ensures { IsNew ⟦<MemoryDevice as ChunkDevice>⟧.told result }
{
    MemoryDevice::new(alloc, fails)
}

/// So many new devices in memory; the first call of the one of this number fails, from 1.
fn memory_devices(
    alloc: Global,
    count: usize,
    failing: usize,
) -> Result<Vec<MemoryDevice>, AllocError>
    ensures { IfOk result (λ devices. All (IsNew ⟦<MemoryDevice as ChunkDevice>⟧.told) devices.items) }
{
    let mut devices = Vec::new(alloc);
    for number in 0..count.min(64) {
        let first = if number + 1 == failing { Some(1) } else { None };
        let fails = calls(alloc, first)?;
        devices.push(device(alloc, fails))?;
    }
    Ok(devices)
}

/// Runs a script by these words over so many devices.
fn run_in_memory(
    alloc: Global,
    words: &[&str],
    script: &[u8],
    count: usize,
    faults: Faults,
) -> Result<Ran, Fail> {
    let mut owned = Vec::new(alloc);
    for word in words {
        owned.push(String::from_str(alloc, word)?)?;
    }
    let mut source = MemorySource::new(script.to_vec(alloc)?, calls(alloc, faults.source)?);
    let mut sink = MemorySink::new(alloc, faults.room, calls(alloc, faults.sink)?)?;
    let mut devices = memory_devices(alloc, count, faults.device)?;
    let mut disks = MetaDisks {
        left: Some(SureDisk::new(alloc)),
        right: Some(SureDisk::new(alloc)),
    };
    let status = top(
        alloc,
        owned.as_slice(),
        &mut source,
        &mut sink,
        &mut devices,
        &mut disks,
        &NoGate,
    );
    let text = sink.as_slice().to_vec(alloc)?;
    Ok(Ran { status, text })
}

/// What a status says.
fn said(alloc: Global, status: Status) -> Result<Vec<u8>, AllocError> {
    let mut text = Vec::new(alloc);
    status.push_text(&mut text)?;
    Ok(text)
}

#[test]
fn scripts_print_their_rows(rt: HostRuntime) -> Result<(), Fail> {
    let first = run_in_memory(rt.alloc(), &["step", "1"], FIRST, 9, NONE)?;
    assert!(rt; first.status == Status::Ok);
    assert!(rt; first.text.as_slice() == FIRST_TEXT);
    let refusals = run_in_memory(rt.alloc(), &["step", "1"], REFUSALS, 12, NONE)?;
    assert!(rt; refusals.status == Status::Ok);
    assert!(rt; refusals.text.as_slice() == REFUSALS_TEXT);
    Ok(())
}

/// Whether these words are answered with the usage, and nothing is written.
fn are_refused(alloc: Global, words: &[&str]) -> Result<bool, Fail> {
    let ran = run_in_memory(alloc, words, FIRST, 9, NONE)?;
    let usage = b"usage: qfs step N | replay | run | make N".as_slice();
    Ok(
        ran.status == Status::Usage
            && ran.status.code() == 2
            && said(alloc, ran.status)?.as_slice() == usage
            && ran.text.is_empty(),
    )
}

#[test]
fn other_words_are_refused(rt: HostRuntime) -> Result<(), Fail> {
    assert!(rt; are_refused(rt.alloc(), &[])?);
    assert!(rt; are_refused(rt.alloc(), &["step"])?);
    assert!(rt; are_refused(rt.alloc(), &["step", "01"])?);
    Ok(())
}

#[test]
fn the_first_bad_line_is_told(rt: HostRuntime) -> Result<(), Fail> {
    let bad = run_in_memory(rt.alloc(), &["step", "1"], BAD_STRIPE, 9, NONE)?;
    let second = Status::BadScript {
        line: 2,
        cause: ScriptCause::NotYet,
    };
    assert!(rt; bad.status == second);
    assert!(rt; bad.text.is_empty());
    Ok(())
}

#[test]
fn statuses_have_their_codes_and_texts(rt: HostRuntime) -> Result<(), Fail> {
    let number = Status::BadScript {
        line: 4,
        cause: ScriptCause::Number,
    };
    let few = Status::TooFewDevices {
        servers: 10,
        devices: 9,
    };
    let known = [
        (Status::Ok, 0, b"".as_slice()),
        (number, 3, b"line 4: number"),
        (few, 5, b"devices 9"),
        (Status::ReadFault, 6, b"read"),
        (Status::WriteFault, 7, b"write"),
        (Status::NoMemory, 10, b"memory"),
        (Status::DeviceFault { server: 3 }, 11, b"device 3"),
    ];
    for (status, code, text) in known {
        assert_eq!(rt; status.code(), code);
        assert_eq!(rt; said(rt.alloc(), status)?.as_slice(), text);
    }
    Ok(())
}

#[test]
fn sources_and_sinks_that_fail_are_told(rt: HostRuntime) -> Result<(), Fail> {
    let source = Faults {
        source: Some(1),
        sink: None,
        device: 0,
        room: 1000,
    };
    let unread = run_in_memory(rt.alloc(), &["step", "1"], FIRST, 9, source)?;
    assert!(rt; unread.status == Status::ReadFault);
    assert!(rt; unread.text.is_empty());
    let full = Faults {
        source: None,
        sink: None,
        device: 0,
        room: 10,
    };
    let part = run_in_memory(rt.alloc(), &["step", "1"], FIRST, 9, full)?;
    assert!(rt; part.status == Status::WriteFault);
    assert!(rt; part.text.as_slice() == b"1 1 at 1 s".as_slice());
    let sink = Faults {
        source: None,
        sink: Some(1),
        device: 0,
        room: 1000,
    };
    let unwritten = run_in_memory(rt.alloc(), &["step", "1"], FIRST, 9, sink)?;
    assert!(rt; unwritten.status == Status::WriteFault);
    assert!(rt; unwritten.text.is_empty());
    Ok(())
}

#[test]
fn devices_are_counted_and_told(rt: HostRuntime) -> Result<(), Fail> {
    let few = run_in_memory(rt.alloc(), &["step", "1"], REFUSALS, 9, NONE)?;
    assert!(rt;
        few.status
            == (Status::TooFewDevices {
                servers: 10,
                devices: 9
            })
    );
    assert!(rt; said(rt.alloc(), few.status)?.as_slice() == b"devices 9".as_slice());
    let third = Faults {
        source: None,
        sink: None,
        device: 3,
        room: 1000,
    };
    let stopped = run_in_memory(rt.alloc(), &["step", "1"], FIRST, 9, third)?;
    assert!(rt; stopped.status == (Status::DeviceFault { server: 3 }));
    assert!(rt; stopped.status.code() == 11);
    assert!(rt; stopped.text.is_empty());
    Ok(())
}
