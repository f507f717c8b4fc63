//! Adopted devices whose one value is no whole record of its key.

use crate::servers::{first_record, key, listed, second_record, stripe};
use qfs_base::chunk::{BlockId, ChunkKey};
use qfs_device::{ChunkDevice, SureDevice};
use qfs_store::Store;
use std::alloc::Global;
use std::test::Fail;

/// Whether a server that adopts a device finds a copy where these bytes stand under this key.
fn finds(alloc: Global, key: ChunkKey, bytes: &[u8]) -> Result<bool, Fail> {
    let mut device = SureDevice::new(alloc);
    device.write(key, bytes)?;
    let mut store = Store::adopt(alloc, device, stripe());
    Ok(listed(alloc, &mut store)?.len() == 1)
}

/// How many bytes of a record, and of what follows it, a server takes for a copy: those of no front,
/// of two or of none.
fn fronts_found(alloc: Global, record: &[u8]) -> Result<Vec<usize>, Fail> {
    let mut found = Vec::new(alloc);
    for cut in 0..=record.len() {
        let front = record.get(..cut).ok_or("a front")?;
        if finds(alloc, key(1), front)? {
            found.push(cut)?;
        }
    }
    Ok(found)
}

#[test]
fn a_record_is_found_whole(rt: HostRuntime) -> Result<(), Fail> {
    let mut first = first_record(rt.alloc(), 1, *b"abc")?;
    first.push(b'd')?;
    assert_eq!(rt;
        fronts_found(rt.alloc(), &first)?.as_slice(),
        [24].as_slice()
    );
    let mut second = second_record(rt.alloc(), 1, *b"abc", stripe())?;
    second.push(b'd')?;
    assert_eq!(rt;
        fronts_found(rt.alloc(), &second)?.as_slice(),
        [28].as_slice()
    );
    Ok(())
}

/// The key of block, slot and version.
fn key_of(file: u32, index: u32, slot: u8, version: u32) -> ChunkKey {
    ChunkKey {
        block: BlockId { file, index },
        slot,
        version,
    }
}

#[test]
fn a_head_of_another_key_is_no_copy(rt: HostRuntime) -> Result<(), Fail> {
    let first = first_record(rt.alloc(), 1, *b"abc")?;
    let second = second_record(rt.alloc(), 1, *b"abc", stripe())?;
    let others = [
        key_of(2, 0, 2, 1),
        key_of(1, 1, 2, 1),
        key_of(1, 0, 3, 1),
        key_of(1, 0, 2, 2),
    ];
    for other in others {
        assert!(rt; !finds(rt.alloc(), other, &first)?);
        assert!(rt; !finds(rt.alloc(), other, &second)?);
    }
    Ok(())
}
