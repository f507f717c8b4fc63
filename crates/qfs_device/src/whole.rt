//! Reading a source to its end, and writing a text whole.
ghost use Rattle.std.specs.Prelude.{◌≡◌, ℕ, ◌<◌, ◌≤◌, length, take, is_some, IfOk, OnOk, OnErr};
ghost use Rattle.qfs_device.specs.Fault.{Rose, HasCause};
ghost use Rattle.qfs_device.specs.Stream.{Gives, IsAtEnd, Appends};

use crate::errors::{DeviceError, Failed};
use crate::stream::{Sink, Source};
use qfs_base::lists::Bytes;
use std::alloc::Global;

// How many bytes are read at once.
const PIECE: usize = 4096;

/// Reads a source to its end, or until more than `limit` bytes were taken.
pub fn read_all<S: Source>(
    alloc: Global,
    source: &mut S,
    limit: usize,
) -> Result<Bytes, DeviceError>
    ensures bytes { IfOk result (λ bytes. Gives bytes (S.left source.old) (S.left source.new)) }
    ensures end { IfOk result (λ bytes. length bytes ≤ limit → IsAtEnd (S.left source.new)) }
    ensures tells { is_some (S.left source.new) ≡ is_some (S.left source.old) }
    ensures never_falls { S.faults source.old ≤ S.faults source.new }
    ensures cause { HasCause (S.faults source.old) (S.faults source.new) result }
{
    let mut bytes = Bytes::new(alloc);
    let mut piece = [0u8; PIECE];
    while bytes.len() <= limit {
        let count = source.read(&mut piece)?;
        if count == 0 {
            return Ok(bytes);
        }
        bytes.extend_from_slice(&piece[..count])?;
    }
    Ok(bytes)
}

/// Writes a text whole. Where it fails, a first part of the text was written.
pub fn write_all<K: Sink>(sink: &mut K, bytes: &[u8]) -> Result<(), Failed>
    ensures ok { OnOk result (Appends bytes.now (K.written sink.old) (K.written sink.new)) }
    ensures err { OnErr result ((count : ℕ) × (count < length bytes.now) × Appends (take count bytes.now) (K.written sink.old) (K.written sink.new)) }
    ensures never_falls { K.faults sink.old ≤ K.faults sink.new }
    ensures cause { OnErr result (Rose (K.faults sink.old) (K.faults sink.new)) }
{
    let mut done = 0;
    while done < bytes.len() {
        done += sink.write(&bytes[done..])?;
    }
    Ok(())
}
