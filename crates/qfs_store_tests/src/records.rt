//! Records as bytes.

use crate::servers::stripe;
use qfs_base::chunk::{BlockId, ChunkKey};
use qfs_record::{ChunkRead, Head, is_second, read_chunk, read_head, write_chunk};
use std::test::Fail;

// `QFC1`, file 1, index 0, slot 7, version 1, sixteen bytes of 3f.
const HEAD: [u8; 21] = [
    0x51, 0x46, 0x43, 0x31, 0, 0, 0, 1, 0, 0, 0, 0, 7, 0, 0, 0, 1, 0, 0, 0, 16,
];

// `QFC2`, file 2, index 0, slot 0, version 1, sixteen bytes, stripe 16: 02 and fifteen 00.
const SECOND: [u8; 25] = [
    0x51, 0x46, 0x43, 0x32, 0, 0, 0, 2, 0, 0, 0, 0, 0, 0, 0, 0, 1, 0, 0, 0, 16, 0, 0, 0, 16,
];

#[test]
fn the_record_of_a_chunk(rt: HostRuntime) -> Result<(), Fail> {
    let key = ChunkKey {
        block: BlockId { file: 1, index: 0 },
        slot: 7,
        version: 1,
    };
    let mut record = Vec::new(rt.alloc());
    write_chunk(key, &[0x3f; 16], 1, 0, &mut record)?;
    assert_eq!(rt; record.len(), 37);
    assert_eq!(rt; &record[..21], HEAD.as_slice());
    assert_eq!(rt; &record[21..], [0x3f; 16].as_slice());

    record.push(0x3f)?;
    let read = read_chunk(&record).ok_or("a record")?;
    let wanted = ChunkRead {
        key,
        form: 1,
        stripe: 0,
        len: 16,
        length: 37,
    };
    assert!(rt; read == wanted);
    assert!(rt; read_chunk(&record[..36]).is_none());
    Ok(())
}

#[test]
fn the_record_of_a_chunk_in_the_second_version(rt: HostRuntime) -> Result<(), Fail> {
    let key = ChunkKey {
        block: BlockId { file: 2, index: 0 },
        slot: 0,
        version: 1,
    };
    let mut bytes = [0; 16];
    bytes[0] = 2;
    let mut record = Vec::new(rt.alloc());
    write_chunk(key, &bytes, 2, stripe(), &mut record)?;
    assert_eq!(rt; record.len(), 41);
    assert_eq!(rt; &record[..25], SECOND.as_slice());
    assert_eq!(rt; &record[25..], bytes.as_slice());

    record.push(0)?;
    let read = read_chunk(&record).ok_or("a record")?;
    let wanted = ChunkRead {
        key,
        form: 2,
        stripe: 16,
        len: 16,
        length: 41,
    };
    assert!(rt; read == wanted);
    assert!(rt; read_chunk(&record[..40]).is_none());

    let head = Head {
        key,
        form: 2,
        stripe: 16,
        len: 16,
    };
    assert!(rt; is_second(&record));
    assert!(rt; read_head(&record) == Some(head));
    assert!(rt; read_head(&record[..24]).is_none());
    // A stripe that no layout has.
    record[24] = 17;
    assert!(rt; read_head(&record).is_none());
    Ok(())
}
