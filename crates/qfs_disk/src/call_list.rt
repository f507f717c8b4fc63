//! Bytes in memory with the list of the calls that made them.
ghost use Rattle.std.specs.Prelude.{◌≡◌, ◌+◌, ◌≤◌, length, vec_len, []};
ghost use Rattle.std.specs.Vec.{vec_capacity};
ghost use Rattle.qfs_disk.specs.Disk.{written};
ghost use Rattle.qfs_disk.specs.Moments.{now, past_of, beginning};

use crate::disk_call::DiskCall;
use crate::moments::Moments;
use std::alloc::{AllocError, Global};

/// Bytes in memory, and all writes, cuts and syncs that made them.
#[derive(Drop)]
pub struct CallList {
    alloc: Global,
    // What there was before the first call, settled.
    start: Vec<u8>,
    calls: Vec<DiskCall>,
    bytes: Vec<u8>,
    ghost kept: { bytes.items ≡ (now (past_of start.items calls.items)).bytes },
}

impl CallList {
    /// No bytes, and no calls. It takes no memory.
    pub fn new(alloc: Global) -> CallList
        ensures { past_of result.start.items result.calls.items ≡ beginning [] }
    {
        CallList {
            alloc,
            start: Vec::new(alloc),
            calls: Vec::new(alloc),
            bytes: Vec::new(alloc),
        }
    }
}

// Puts bytes at an offset, over what is there and past the end, where there is room for them.
pub fn put_at(old: &mut Vec<u8>, at: usize, bytes: &[u8])
    requires inside { at ≤ length old.old.items }
    requires room { vec_len old.old + length bytes.now ≤ vec_capacity old.old }
    ensures { old.new.items ≡ written at bytes.now old.old.items }
{
    let over = bytes.len().min(old.len() - at);
    old[at..at + over].copy_from_slice(&bytes[..over]);
    old.extend_from_slice(&bytes[over..]).unwrap();
}

impl Moments for CallList {
    ghost past = { λ list. past_of list.start.items list.calls.items };

    fn bytes(&self) -> &[u8] {
        &self.bytes
    }

    fn write(&mut self, at: u64, bytes: &[u8]) -> Result<(), AllocError> {
        let kept = bytes.to_vec(self.alloc)?;
        self.bytes.reserve(bytes.len())?;
        self.calls.push(DiskCall::Write { at, bytes: kept })?;
        put_at(&mut self.bytes, at as usize, bytes);
        Ok(())
    }

    fn cut(&mut self, len: u64) -> Result<(), AllocError> {
        self.calls.push(DiskCall::Cut { len })?;
        self.bytes.truncate(len as usize);
        Ok(())
    }

    fn sync(&mut self) -> Result<(), AllocError> {
        self.calls.push(DiskCall::Sync)?;
        Ok(())
    }
}
