//! The small values of records: numbers from 1, truth values, paths, slots and copies.
ghost use Rattle.std.specs.Prelude.{◌≡◌, ◌≤◌, ◌++◌, OnOk, OnErr, IfOk, IfSome};
ghost use Rattle.qfs_spelling.specs.Fronts.{Extends, Finds, numbered};
ghost use Rattle.std.specs.Int.{w64};
ghost use Rattle.qfs_model_disks.specs.Values.{file_length, from_one, path, slot_id};
ghost use Rattle.qfs_record.specs.ChunkRecord.{chunk_key};
ghost use Rattle.qfs_record.specs.Part.{flag, number};

use crate::patch::set_u16;
use crate::spelled::Spelled;
use qfs_base::chunk::ChunkKey;
use qfs_base::path::{Path, path_from};
use qfs_base::request::SlotId;
use qfs_base::sizes::MOST_FILE_BYTES;
use qfs_record::{
    block_at, counted_u16_at, key_at, put_block, put_key, put_u8, put_u16, put_u64, slot_at,
    u16_at, u32_at, u64_at,
};
use std::alloc::{AllocError, Global};

/// The number of a server or of an actor at the front of bytes: from 1 on.
pub fn from_one_at(bytes: &[u8]) -> Option<(u16, &[u8])>
    ensures read { Finds from_one bytes.now result }
    ensures least { IfSome result (λ front. 1 ≤ front.0) }
{
    let (number, rest) = u16_at(bytes)?;
    if 1 <= number {
        Some((number, rest))
    } else {
        None
    }
}

/// The length of a file at the front of bytes: at most 268,435,456.
pub fn file_length_at(bytes: &[u8]) -> Option<(u32, &[u8])>
    ensures { Finds file_length bytes.now result }
{
    let (len, rest) = u32_at(bytes)?;
    if len <= MOST_FILE_BYTES {
        Some((len, rest))
    } else {
        None
    }
}

/// Puts a truth value at the end of `out`, as a byte 0 or 1. On want of memory `out` stays as it
/// was.
pub fn put_flag(truth: bool, out: &mut Vec<u8>) -> Result<(), AllocError>
    ensures ok { OnOk result (out.new.items ≡ out.old.items ++ flag.text truth) }
    ensures err { OnErr result (out.new.items ≡ out.old.items) }
{
    out.push(u8::from(truth))?;
    Ok(())
}

/// The truth value at the front of bytes: a byte 0 or 1.
pub fn flag_at(bytes: &[u8]) -> Option<(bool, &[u8])>
    ensures { Finds flag bytes.now result }
{
    match bytes {
        [0, rest @ ..] => Some((false, rest)),
        [1, rest @ ..] => Some((true, rest)),
        _ => None,
    }
}

impl Spelled for u64 {
    ghost part = { number w64 };

    fn put(&self, out: &mut Vec<u8>) -> Result<(), AllocError> {
        put_u64(*self, out)
    }

    fn read_at(_alloc: Global, bytes: &[u8]) -> Result<Option<(u64, &[u8])>, AllocError> {
        Ok(u64_at(bytes))
    }
}

impl Spelled for Path {
    ghost part = { path };

    fn put(&self, out: &mut Vec<u8>) -> Result<(), AllocError> {
        put_path(self, out)
    }

    fn read_at(alloc: Global, bytes: &[u8]) -> Result<Option<(Path, &[u8])>, AllocError> {
        path_at(alloc, bytes)
    }
}

/// Puts a path at the end of `out`: its text, and the length of that before it. On want of memory
/// only a front of it stands there.
pub fn put_path(names: &Path, out: &mut Vec<u8>) -> Result<(), AllocError>
    ensures ok { OnOk result (out.new.items ≡ out.old.items ++ path.text names.now) }
    ensures err { OnErr result (Extends out.old.items out.new.items) }
{
    // So short is the text of every path that two bytes hold its length.
    let _ = &names.names;
    let start = out.len();
    put_u16(0, out)?;
    names.print(out)?;
    let len = out.len() - start - 2;
    set_u16(len as u16, start, out);
    Ok(())
}

/// Puts the number of a kind and a path at the end of `out`. On want of memory only a front of that
/// stands there.
pub fn put_of_path(kind: u8, names: &Path, out: &mut Vec<u8>) -> Result<(), AllocError>
    ensures ok { OnOk result (out.new.items
        ≡ out.old.items ++ (numbered path).text (kind, names.now)) }
    ensures err { OnErr result (Extends out.old.items out.new.items) }
{
    put_u8(kind, out)?;
    put_path(names, out)
}

/// The path at the front of bytes.
pub fn path_at(alloc: Global, bytes: &[u8]) -> Result<Option<(Path, &[u8])>, AllocError>
    ensures { IfOk result (Finds path bytes.now) }
{
    let Some((text, rest)) = counted_u16_at(bytes) else {
        return Ok(None);
    };
    let Some(found) = path_from(alloc, text)? else {
        return Ok(None);
    };
    Ok(Some((found, rest)))
}

impl Spelled for ChunkKey {
    ghost part = { chunk_key };

    fn put(&self, out: &mut Vec<u8>) -> Result<(), AllocError> {
        put_key(*self, out)
    }

    fn read_at(_alloc: Global, bytes: &[u8]) -> Result<Option<(ChunkKey, &[u8])>, AllocError> {
        Ok(key_at(bytes))
    }
}

impl Spelled for SlotId {
    ghost part = { slot_id };

    fn put(&self, out: &mut Vec<u8>) -> Result<(), AllocError> {
        put_block(self.block, out)?;
        put_u8(self.slot, out)
    }

    fn read_at(_alloc: Global, bytes: &[u8]) -> Result<Option<(SlotId, &[u8])>, AllocError> {
        Ok(slot_id_at(bytes))
    }
}

/// The slot of a block at the front of bytes.
fn slot_id_at(bytes: &[u8]) -> Option<(SlotId, &[u8])>
    ensures { Finds slot_id bytes.now result }
{
    let (block, rest) = block_at(bytes)?;
    let (slot, rest) = slot_at(rest)?;
    Some((SlotId { block, slot }, rest))
}
