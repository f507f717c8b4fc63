//! Calls that fail, through the traits' bounds.

use qfs_base::chunk::{BlockId, ChunkKey};
use qfs_device::{
    ChunkDevice, DeviceError, Failed, LogDisk, MemoryDevice, MemoryDisk, MemorySink, MemorySource,
    MetaDisks, NoGate, Sink, Source, StdSink, StdSource, SureDevice, SureDisk, SureSink,
    SureSource, read_all, write_all,
};
use std::alloc::Global;
use std::test::Fail;

fn key(version: u32) -> ChunkKey {
    ChunkKey {
        block: BlockId { file: 1, index: 0 },
        slot: 2,
        version,
    }
}

// How many bytes stand under the keys of a device.
fn total<D: ChunkDevice>(device: &mut D) -> Result<u64, DeviceError> {
    let mut total = 0u64;
    for chunk in &device.keys()? {
        total = total.saturating_add(chunk.size);
    }
    Ok(total)
}

fn life_after_wipe<D: ChunkDevice>(device: &mut D) -> Result<u32, DeviceError> {
    device.wipe()?;
    Ok(device.life())
}

fn numbers(alloc: Global, numbers: &[u64]) -> Result<Vec<u64>, Fail> {
    Ok(Vec::from_slice(alloc, numbers)?)
}

#[test]
fn a_device_fails_by_its_list(rt: HostRuntime) -> Result<(), Fail> {
    let mut device = MemoryDevice::new(rt.alloc(), numbers(rt.alloc(), &[2, 5])?);
    device.write(key(1), b"abc")?;
    assert_eq!(rt; device.write(key(1), b"abcd"), Err(DeviceError::Failed));
    assert_eq!(rt; total(&mut device)?, 0);
    device.write(key(2), b"ab")?;
    assert_eq!(rt; life_after_wipe(&mut device), Err(DeviceError::Failed));
    assert_eq!(rt; total(&mut device)?, 2);
    assert_eq!(rt; life_after_wipe(&mut device)?, 2);
    assert_eq!(rt; total(&mut device)?, 0);
    Ok(())
}

#[test]
fn a_device_reads_what_was_written(rt: HostRuntime) -> Result<(), Fail> {
    let mut device = SureDevice::new(rt.alloc());
    let key = key(1);
    device.write(key, b"chunk")?;
    let mut out = [0u8; 3];
    device.read(key, 1, &mut out)?;
    assert_eq!(rt; out.as_slice(), b"hun".as_slice());
    device.remove(key)?;
    assert_eq!(rt; total(&mut device)?, 0);
    Ok(())
}

#[test]
fn a_source_fails_its_first_read(rt: HostRuntime) -> Result<(), Fail> {
    let bytes = Vec::from_slice(rt.alloc(), b"qfs 1")?;
    let mut source = MemorySource::new(bytes, numbers(rt.alloc(), &[1])?);
    assert!(rt; read_all(rt.alloc(), &mut source, 100).is_err());
    let read = read_all(rt.alloc(), &mut source, 100)?;
    assert_eq!(rt; read.as_slice(), b"qfs 1".as_slice());
    Ok(())
}

#[test]
fn a_source_may_be_too_long(rt: HostRuntime) -> Result<(), Fail> {
    let bytes = Vec::from_slice(rt.alloc(), b"qfs 1")?;
    let mut source = SureSource::new(bytes);
    assert!(rt; read_all(rt.alloc(), &mut source, 4)?.len() > 4);
    Ok(())
}

#[test]
fn a_sink_may_be_full(rt: HostRuntime) -> Result<(), Fail> {
    let mut sink = SureSink::new(rt.alloc(), 4)?;
    assert_eq!(rt; write_all(&mut sink, b"qfs 1"), Err(Failed));
    assert_eq!(rt; sink.as_slice(), b"qfs ".as_slice());
    let mut failing = MemorySink::new(rt.alloc(), 8, numbers(rt.alloc(), &[1])?)?;
    assert_eq!(rt; failing.write(b"qfs"), Err(Failed));
    assert_eq!(rt; write_all(&mut failing, b"qfs 1"), Ok(()));
    Ok(())
}

fn size_of<L: LogDisk>(disk: &L) -> u64 {
    disk.size()
}

#[test]
fn a_disk_begins_empty(rt: HostRuntime) -> Result<(), Fail> {
    let disk = MemoryDisk::new(rt.alloc(), numbers(rt.alloc(), &[9])?);
    assert_eq!(rt; size_of(&disk), 0);
    assert_eq!(rt; size_of(&SureDisk::new(rt.alloc())), 0);
    Ok(())
}

// A value that may cross threads.
fn crosses<T: Send + Sync + Drop>(_value: T) {}

#[test]
fn all_may_cross_threads(rt: HostRuntime) -> Result<(), Fail> {
    crosses(MemoryDevice::new(rt.alloc(), Vec::new(rt.alloc())));
    crosses(SureDevice::new(rt.alloc()));
    crosses(MetaDisks {
        left: Some(SureDisk::new(rt.alloc())),
        right: None,
    });
    crosses(StdSource::new(rt.stdin()));
    crosses(StdSink::new(rt.stdout()));
    crosses(NoGate);
    Ok(())
}
