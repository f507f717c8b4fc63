//! Lists, maps and sets at the types that messages and records have.

use qfs_base::chunk::{BlockId, ChunkKey};
use qfs_base::key_map::KeyMap;
use qfs_base::listing::Listing;
use qfs_base::mask::Mask;
use qfs_base::server_set::ServerSet;
use std::alloc::{AllocError, Global};
use std::test::Fail;

#[derive(Clone, Debug, Drop, PartialEq, Eq, PartialOrd, Ord)]
enum Told {
    Text(Listing<u8>),
    Many(Listing<Listing<u8>>),
    Maybe(Option<Listing<u16>>),
    Nothing,
}

#[derive(Clone, Debug, Drop, PartialEq, Eq)]
struct Line {
    at: u32,
    told: Listing<Told>,
}

fn text(alloc: Global, bytes: &[u8]) -> Result<Told, AllocError> {
    Ok(Told::Text(Listing::from_slice(alloc, bytes)?))
}

#[test]
fn lists_nest_in_enums(rt: HostRuntime) -> Result<(), Fail> {
    let mut told = Listing::new(rt.alloc());
    told.push(text(rt.alloc(), b"ab")?)?;
    told.push(Told::Nothing)?;
    let line = Line { at: 1, told };
    let copy = line.clone()?;
    assert_eq!(rt; line, copy);
    assert!(rt; text(rt.alloc(), b"ab")? < text(rt.alloc(), b"b")?);
    Ok(())
}

#[test]
fn the_last_item_is_written(rt: HostRuntime) -> Result<(), Fail> {
    let mut items = Listing::from_slice(rt.alloc(), &[3u16, 5])?;
    assert_eq!(rt; items.len(), 2);
    items.set_last(7);
    assert_eq!(rt; items.as_slice(), [3, 7].as_slice());
    Ok(())
}

#[test]
fn a_map_goes_by_key(rt: HostRuntime) -> Result<(), Fail> {
    let block = BlockId { file: 1, index: 0 };
    let low = ChunkKey {
        block,
        slot: 2,
        version: 1,
    };
    let high = ChunkKey {
        block,
        slot: 3,
        version: 1,
    };
    let mut map = KeyMap::new(rt.alloc());
    map.insert(high, Listing::from_slice(rt.alloc(), b"high")?)?;
    map.insert(low, Listing::from_slice(rt.alloc(), b"low")?)?;
    let mut sizes = Listing::new(rt.alloc());
    for (_, bytes) in map.iter() {
        sizes.push(bytes.len())?;
    }
    assert_eq!(rt; sizes.as_slice(), [3, 4].as_slice());
    assert!(rt; map.remove(&low).is_some());
    assert!(rt; !map.contains(&low));
    Ok(())
}

#[derive(Clone, Copy, PartialEq, Eq)]
struct Barred {
    slot: u8,
    servers: ServerSet,
}

#[test]
fn a_set_goes_by_number(rt: HostRuntime) -> Result<(), Fail> {
    let mut servers = ServerSet::none();
    servers.insert(64);
    servers.insert(3);
    servers.insert(64);
    let barred = Barred { slot: 1, servers };
    assert!(rt; barred == Barred { slot: 1, servers });
    assert!(rt; barred.servers.contains(64) && !barred.servers.contains(4));
    let mut numbers = Listing::new(rt.alloc());
    for server in barred.servers.iter() {
        numbers.push(server)?;
    }
    assert_eq!(rt; numbers.as_slice(), [3, 64].as_slice());
    Ok(())
}

#[test]
fn a_mask_holds_what_is_put_in(rt: HostRuntime) {
    let mask = Mask::none().with(8).with(0).with(3).with(0);
    assert_eq!(rt; mask.count(), 3);
    assert!(rt; mask.contains(0) && mask.contains(3) && mask.contains(8));
    assert!(rt; !mask.contains(1) && !mask.contains(9) && !mask.contains(255));
    assert_eq!(rt; mask.next_from(1), Some(3));
    assert_eq!(rt; mask.next_from(9), None);
    assert!(rt; mask == Mask::none().with(3).with(8).with(0));
}
