//! Sources and sinks in memory.
ghost use Rattle.std.specs.Prelude.{◌≡◌, ◌+◌, ◌≤◌, min, [], ◌++◌, length, take, drop, Some, IfOk, vec_len};
ghost use Rattle.std.specs.Vec.{vec_capacity};

use crate::errors::Failed;
use crate::faults::{FailList, Faults, NeverFails};
use crate::stream::{Sink, Source};
use std::alloc::{AllocError, Global};

/// A source in memory. It tells what is left.
#[derive(Drop)]
pub struct BytesSource<F> {
    bytes: Vec<u8>,
    // How many bytes were taken.
    taken: usize,
    faults: F,
    ghost within: { taken ≤ vec_len bytes },
}

/// A source in memory whose calls fail by a list.
pub type MemorySource = BytesSource<FailList>;

/// A source in memory that never fails.
pub type SureSource = BytesSource<NeverFails>;

impl BytesSource<FailList> {
    /// A source of these bytes. `fails` are the numbers of the reads that fail, rising, counted
    /// from 1. It takes no memory.
    pub fn new(bytes: Vec<u8>, fails: Vec<u64>) -> BytesSource<FailList>
        ensures left { ⟦<BytesSource<FailList> as Source>⟧.left result ≡ Some bytes.items }
        ensures faults { ⟦<BytesSource<FailList> as Source>⟧.faults result ≡ 0 }
    {
        BytesSource {
            bytes,
            taken: 0,
            faults: FailList::new(fails),
        }
    }
}

impl BytesSource<NeverFails> {
    /// A source of these bytes. It takes no memory.
    pub fn new(bytes: Vec<u8>) -> BytesSource<NeverFails>
        ensures left { ⟦<BytesSource<NeverFails> as Source>⟧.left result ≡ Some bytes.items }
        ensures faults { ⟦<BytesSource<NeverFails> as Source>⟧.faults result ≡ 0 }
    {
        BytesSource {
            bytes,
            taken: 0,
            faults: NeverFails,
        }
    }
}

// Copies from the front of `bytes` what `out` has room for.
fn copy_front(bytes: &[u8], out: &mut [u8]) -> usize
    ensures count { result ≡ min (length out.old) (length bytes.now) }
    ensures front { take result out.new ++ drop result bytes.now ≡ bytes.now }
{
    let count = out.len().min(bytes.len());
    out[..count].copy_from_slice(&bytes[..count]);
    count
}

impl<F: Faults> Source for BytesSource<F> {
    ghost left = { λ source. Some (drop source.taken source.bytes.items) };

    ghost faults = { λ source. F.count source.faults };

    /// A read that fails takes nothing.
    fn read(&mut self, out: &mut [u8]) -> Result<usize, Failed> {
        if self.faults.next_fails() {
            return Err(Failed);
        }
        let count = copy_front(&self.bytes[self.taken..], out);
        self.taken += count;
        Ok(count)
    }
}

/// A sink in memory, with room for so many bytes. It tells what was written.
#[derive(Drop)]
pub struct RoomSink<F> {
    bytes: Vec<u8>,
    room: usize,
    faults: F,
    // How many writes found the room full.
    full: u64,
    ghost within: { vec_len bytes ≤ room },
    ghost reserved: { room ≤ vec_capacity bytes },
}

/// A sink in memory whose calls fail by a list, and where its room is full.
pub type MemorySink = RoomSink<FailList>;

/// A sink in memory that fails only where its room is full.
pub type SureSink = RoomSink<NeverFails>;

impl RoomSink<FailList> {
    /// An empty sink with room for so many bytes. `fails` are the numbers of the writes that
    /// fail, rising, counted from 1.
    pub fn new(
        alloc: Global,
        room: usize,
        fails: Vec<u64>,
    ) -> Result<RoomSink<FailList>, AllocError>
        ensures written { IfOk result (λ sink. ⟦<RoomSink<FailList> as Sink>⟧.written sink ≡ Some []) }
        ensures faults { IfOk result (λ sink. ⟦<RoomSink<FailList> as Sink>⟧.faults sink ≡ 0) }
    {
        let bytes = Vec::with_capacity(alloc, room)?;
        Ok(RoomSink {
            bytes,
            room,
            faults: FailList::new(fails),
            full: 0,
        })
    }
}

impl RoomSink<NeverFails> {
    /// An empty sink with room for so many bytes.
    pub fn new(alloc: Global, room: usize) -> Result<RoomSink<NeverFails>, AllocError>
        ensures written { IfOk result (λ sink. ⟦<RoomSink<NeverFails> as Sink>⟧.written sink ≡ Some []) }
        ensures faults { IfOk result (λ sink. ⟦<RoomSink<NeverFails> as Sink>⟧.faults sink ≡ 0) }
    {
        let bytes = Vec::with_capacity(alloc, room)?;
        Ok(RoomSink {
            bytes,
            room,
            faults: NeverFails,
            full: 0,
        })
    }
}

impl<F> RoomSink<F> {
    /// What was written.
    pub fn as_slice(&self) -> &[u8]
        ensures { result.now ≡ self.now.bytes.items }
    {
        self.bytes.as_slice()
    }
}

impl<F: Faults> Sink for RoomSink<F> {
    ghost written = { λ sink. Some sink.bytes.items };

    ghost faults = { λ sink. F.count sink.faults + sink.full };

    /// A write takes what still fits, and no memory. It fails where nothing fits.
    fn write(&mut self, bytes: &[u8]) -> Result<usize, Failed> {
        if self.faults.next_fails() {
            return Err(Failed);
        }
        let count = bytes.len().min(self.room - self.bytes.len());
        if count == 0 && !bytes.is_empty() {
            self.full = self.full.saturating_add(1);
            return Err(Failed);
        }
        self.bytes.extend_from_slice(&bytes[..count]).unwrap();
        Ok(count)
    }
}
