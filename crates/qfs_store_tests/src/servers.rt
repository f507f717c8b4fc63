//! Servers over devices in memory: what an Upgrade changes, and what a Start finds.
ghost use Rattle.std.specs.Prelude.{◌≡◌};
ghost use Rattle.qfs_base.specs.Shape.{IsStripe};
ghost use Rattle.qfs_store.specs.Serves.{IsBuilt};

use qfs_base::chunk::{BlockId, ChunkKey};
use qfs_base::lists::Bytes;
use qfs_base::reply::{ChunkAnswer, ChunkReply};
use qfs_base::request::ChunkRequest;
use qfs_device::{ChunkDevice, MemoryDevice, SureDevice};
use qfs_record::write_chunk;
use qfs_store::Store;
use std::alloc::Global;
use std::test::Fail;

/// The stripe of the servers' layout, in bytes.
pub fn stripe() -> u32
    ensures { IsStripe result }
{
    16
}

/// The stripe of another layout, in bytes.
fn other_stripe() -> u32
    ensures { IsStripe result }
{
    32
}

/// The key of slot 2 of block 0 of file 1.
pub fn key(version: u32) -> ChunkKey
    ensures { result.slot ≡ 2 }
{
    ChunkKey {
        block: BlockId { file: 1, index: 0 },
        slot: 2,
        version,
    }
}

/// The record of three bytes in the first version.
pub fn first_record(alloc: Global, version: u32, bytes: [u8; 3]) -> Result<Vec<u8>, Fail> {
    let mut record = Vec::new(alloc);
    write_chunk(key(version), &bytes, 1, 0, &mut record)?;
    Ok(record)
}

/// The record of three bytes in the second version, under a layout of this stripe.
pub fn second_record(
    alloc: Global,
    version: u32,
    bytes: [u8; 3],
    stripe: u32,
) -> Result<Vec<u8>, Fail>
    requires { IsStripe stripe }
{
    let mut record = Vec::new(alloc);
    write_chunk(key(version), &bytes, 2, stripe, &mut record)?;
    Ok(record)
}

/// The answer of a server, whose room is left.
pub fn answer<D: ChunkDevice>(store: &mut Store<D>, request: ChunkRequest) -> ChunkAnswer
    requires { IsBuilt request }
{
    let ChunkReply { answer, room: _ } = store.serve(request);
    answer
}

/// The versions of the copies that a server lists once it was started.
pub fn listed<D: ChunkDevice>(alloc: Global, store: &mut Store<D>) -> Result<Vec<u32>, Fail> {
    let started = answer(store, ChunkRequest::Start);
    if !matches!(started, ChunkAnswer::Started { .. }) {
        return Err(Fail::new("no start"));
    }
    match answer(store, ChunkRequest::Inventory) {
        ChunkAnswer::Inventory { life: _, keys } => versions_of(alloc, keys.as_slice()),
        _ => Err(Fail::new("no inventory")),
    }
}

fn versions_of(alloc: Global, keys: &[ChunkKey]) -> Result<Vec<u32>, Fail> {
    let mut versions = Vec::new(alloc);
    for key in keys {
        versions.push(key.version)?;
    }
    Ok(versions)
}

/// Whether a copy of these bytes is stored.
fn stores<D: ChunkDevice>(
    alloc: Global,
    store: &mut Store<D>,
    version: u32,
    bytes: [u8; 3],
) -> Result<bool, Fail> {
    let put = ChunkRequest::Put {
        key: key(version),
        life: 1,
        bytes: Bytes::from_slice(alloc, &bytes)?,
    };
    Ok(matches!(answer(store, put), ChunkAnswer::Stored))
}

/// Two bytes of a copy from `from` on, or None where they are refused.
fn fetched<D: ChunkDevice>(
    alloc: Global,
    store: &mut Store<D>,
    version: u32,
    from: u32,
) -> Result<Option<Bytes>, Fail> {
    let fetch = ChunkRequest::Fetch {
        key: key(version),
        life: 1,
        from,
        room: Bytes::from_slice(alloc, &[9; 2])?,
    };
    let ChunkReply { answer, room } = store.serve(fetch);
    Ok(match answer {
        ChunkAnswer::Fetched => Some(room),
        _ => None,
    })
}

/// How many bytes stand under each key of a device.
fn sizes<D: ChunkDevice>(alloc: Global, device: &mut D) -> Result<Vec<u64>, Fail> {
    let mut sizes = Vec::new(alloc);
    for chunk in &device.keys()? {
        sizes.push(chunk.size)?;
    }
    Ok(sizes)
}

/// A server that is up, over a new device.
fn new_server(alloc: Global) -> Store<SureDevice> {
    Store::new(alloc, SureDevice::new(alloc), stripe())
}

/// Whether a server was upgraded.
fn upgrades<D: ChunkDevice>(store: &mut Store<D>) -> bool {
    let answer = answer(store, ChunkRequest::Upgrade);
    matches!(answer, ChunkAnswer::Upgraded)
}

/// Whether a server stored two copies, and was upgraded between them.
fn stores_both<D: ChunkDevice>(alloc: Global, store: &mut Store<D>) -> Result<bool, Fail> {
    let first = stores(alloc, store, 1, *b"abc")?;
    let upgraded = upgrades(store);
    let second = stores(alloc, store, 2, *b"xyz")?;
    Ok(first && upgraded && second)
}

#[test]
fn an_upgraded_server_reads_both_versions(rt: HostRuntime) -> Result<(), Fail> {
    let mut store = new_server(rt.alloc());
    assert!(rt; stores_both(rt.alloc(), &mut store)?);
    assert!(rt; !stores(rt.alloc(), &mut store, 2, *b"xyz")?);
    let first = fetched(rt.alloc(), &mut store, 1, 1)?.ok_or("the first")?;
    assert_eq!(rt; first.as_slice(), b"bc".as_slice());
    let second = fetched(rt.alloc(), &mut store, 2, 1)?.ok_or("the second")?;
    assert_eq!(rt; second.as_slice(), b"yz".as_slice());
    assert!(rt; fetched(rt.alloc(), &mut store, 2, 2)?.is_none());
    Ok(())
}

#[test]
fn a_stopped_server_is_not_upgraded(rt: HostRuntime) -> Result<(), Fail> {
    let mut store = new_server(rt.alloc());
    assert!(rt; matches!(answer(&mut store, ChunkRequest::Stop), ChunkAnswer::Stopped));
    assert!(rt; matches!(answer(&mut store, ChunkRequest::Upgrade), ChunkAnswer::Down));
    Ok(())
}

// A head has 21 bytes in the first version and 25 in the second, and a layout of another stripe
// finds the copies of the first version alone.
#[test]
fn an_upgrade_changes_what_is_written_from_then_on(rt: HostRuntime) -> Result<(), Fail> {
    let alloc = rt.alloc();
    let mut store = new_server(alloc);
    assert!(rt; stores_both(alloc, &mut store)?);
    let mut device = store.into_device();
    assert_eq!(rt; sizes(alloc, &mut device)?.as_slice(), [24, 28].as_slice());
    let mut foreign = Store::adopt(alloc, device, other_stripe());
    assert_eq!(rt; listed(alloc, &mut foreign)?.as_slice(), [1].as_slice());
    let mut own = Store::adopt(alloc, foreign.into_device(), stripe());
    assert_eq!(rt; listed(alloc, &mut own)?.as_slice(), [1, 2].as_slice());
    Ok(())
}

/// A device with these bytes under the keys of rising versions.
fn device_of(alloc: Global, records: &[&[u8]]) -> Result<SureDevice, Fail> {
    let mut device = SureDevice::new(alloc);
    let mut version = 0u32;
    for record in records {
        version = version.saturating_add(1);
        device.write(key(version), record)?;
    }
    Ok(device)
}

#[test]
fn a_start_finds_both_versions(rt: HostRuntime) -> Result<(), Fail> {
    let alloc = rt.alloc();
    let first = first_record(alloc, 1, *b"abc")?;
    let second = second_record(alloc, 2, *b"xyz", stripe())?;
    let foreign = second_record(alloc, 3, *b"xyz", other_stripe())?;
    let device = device_of(
        alloc,
        &[first.as_slice(), second.as_slice(), foreign.as_slice()],
    )?;
    let mut store = Store::adopt(alloc, device, stripe());
    assert!(rt;
        matches!(
            answer(&mut store, ChunkRequest::Inventory),
            ChunkAnswer::Down
        )
    );
    assert_eq!(rt; listed(alloc, &mut store)?.as_slice(), [1, 2].as_slice());
    let second = fetched(alloc, &mut store, 2, 1)?.ok_or("the second")?;
    assert_eq!(rt; second.as_slice(), b"yz".as_slice());
    Ok(())
}

#[test]
fn a_failed_start_leaves_the_server_down(rt: HostRuntime) -> Result<(), Fail> {
    let alloc = rt.alloc();
    let mut device = MemoryDevice::new(alloc, Vec::from_slice(alloc, &[3])?);
    device.write(key(1), first_record(alloc, 1, *b"abc")?.as_slice())?;
    let mut store = Store::adopt(alloc, device, stripe());
    assert!(rt; matches!(answer(&mut store, ChunkRequest::Start), ChunkAnswer::Fault));
    assert!(rt;
        matches!(
            answer(&mut store, ChunkRequest::Inventory),
            ChunkAnswer::Down
        )
    );
    assert_eq!(rt; listed(alloc, &mut store)?.as_slice(), [1].as_slice());
    Ok(())
}
