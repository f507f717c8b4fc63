//! The head of a chunk record: all that stands before the chunk's bytes.

ghost use Rattle.std.specs.Prelude.{◌≡◌, ℕ, List, ◌++◌, OnOk, OnErr};
ghost use Rattle.std.specs.Option.{option_map};
ghost use Rattle.qfs_record.specs.Part.{AreBytes};
ghost use Rattle.qfs_record.specs.ChunkRecord.{block, slot, chunk_key, chunk_len, fields, is_stripe, stripe_part, first_head, second_head, begins_second, head_text, head_at, head_in};

use crate::reading::{u8_at, u32_at};
use crate::writing::{put_u8, put_u32};
use qfs_base::chunk::{BlockId, ChunkKey};
use qfs_base::numbers::Slot;
use qfs_base::sizes::{MOST_CHUNK_BYTES, SLOTS};
use std::alloc::AllocError;

/// The bytes that a chunk record of the first version begins with.
const FIRST_MARK: [u8; 4] = *b"QFC1";

/// The bytes that one of the second version begins with.
const SECOND_MARK: [u8; 4] = *b"QFC2";

/// The head of a chunk record, in either of its two versions.
#[derive(Clone, Copy, PartialEq, Eq)]
pub struct Head {
    pub key: ChunkKey,
    /// The version of the record: 1 or 2.
    pub form: u8,
    /// The stripe of the layout, in bytes, which the second version names; 0 in the first.
    pub stripe: u32,
    /// How many bytes the chunk has: at most 67,108,864.
    pub len: u32,
}

/// Whether a record begins with the mark of the second version, whose head is longer.
pub fn is_second(bytes: &[u8]) -> bool
    ensures { result ≡ begins_second bytes.now }
{
    bytes.starts_with(&SECOND_MARK)
}

/// The head at the front of the bytes. None says that no front of them is one. Who knows of these
/// bytes as numbers alone learns that they are bytes.
pub fn read_head(bytes: &[u8]) -> Option<Head>
    ensures head { result ≡ head_in bytes.now }
    ensures bytes { AreBytes bytes.now }
{
    let (head, _) = head_at(bytes)?;
    Some(head)
}

/// The head at the front, in either version, and what follows it.
pub fn head_at(bytes: &[u8]) -> Option<(Head, &[u8])>
    ensures { option_map (λ front. (front.0, front.1.now)) result ≡ head_at bytes.now }
{
    if bytes.starts_with(&FIRST_MARK) {
        let ((key, len), rest) = first_at(bytes)?;
        return Some((
            Head {
                key,
                form: 1,
                stripe: 0,
                len,
            },
            rest,
        ));
    }
    let (((key, len), stripe), rest) = second_at(bytes)?;
    Some((
        Head {
            key,
            form: 2,
            stripe,
            len,
        },
        rest,
    ))
}

/// A head of the first version at the front: the key, and how many bytes the chunk has.
fn first_at(bytes: &[u8]) -> Option<((ChunkKey, u32), &[u8])>
    ensures { option_map (λ front. (front.0, front.1.now)) result ≡ first_head.read bytes.now }
{
    fields_at(bytes.strip_prefix(&FIRST_MARK)?)
}

/// A head of the second version at the front: the same, and the stripe.
fn second_at(bytes: &[u8]) -> Option<(((ChunkKey, u32), u32), &[u8])>
    ensures { option_map (λ front. (front.0, front.1.now)) result ≡ second_head.read bytes.now }
{
    let (fields, rest) = fields_at(bytes.strip_prefix(&SECOND_MARK)?)?;
    let (stripe, rest) = stripe_at(rest)?;
    Some(((fields, stripe), rest))
}

/// The key at the front, and how many bytes the chunk has.
fn fields_at(bytes: &[u8]) -> Option<((ChunkKey, u32), &[u8])>
    ensures { option_map (λ front. (front.0, front.1.now)) result ≡ fields.read bytes.now }
{
    let (key, rest) = key_at(bytes)?;
    let (len, rest) = len_at(rest)?;
    Some(((key, len), rest))
}

/// The key at the front: file, index, slot and version.
pub fn key_at(bytes: &[u8]) -> Option<(ChunkKey, &[u8])>
    ensures { option_map (λ front. (front.0, front.1.now)) result ≡ chunk_key.read bytes.now }
{
    let (block, rest) = block_at(bytes)?;
    let (slot, rest) = slot_at(rest)?;
    let (version, rest) = u32_at(rest)?;
    let key = ChunkKey {
        block,
        slot,
        version,
    };
    Some((key, rest))
}

/// The file and index at the front.
pub fn block_at(bytes: &[u8]) -> Option<(BlockId, &[u8])>
    ensures { option_map (λ front. (front.0, front.1.now)) result ≡ block.read bytes.now }
{
    let (file, rest) = u32_at(bytes)?;
    let (index, rest) = u32_at(rest)?;
    Some((BlockId { file, index }, rest))
}

/// The slot at the front, which is below 9.
pub fn slot_at(bytes: &[u8]) -> Option<(Slot, &[u8])>
    ensures { option_map (λ front. (front.0, front.1.now)) result ≡ slot.read bytes.now }
{
    let (slot, rest) = u8_at(bytes)?;
    if slot < SLOTS {
        Some((slot, rest))
    } else {
        None
    }
}

/// The count of a chunk's bytes at the front.
fn len_at(bytes: &[u8]) -> Option<(u32, &[u8])>
    ensures { option_map (λ front. (front.0, front.1.now)) result ≡ chunk_len.read bytes.now }
{
    let (len, rest) = u32_at(bytes)?;
    if len <= MOST_CHUNK_BYTES {
        Some((len, rest))
    } else {
        None
    }
}

/// The stripe at the front.
fn stripe_at(bytes: &[u8]) -> Option<(u32, &[u8])>
    ensures { option_map (λ front. (front.0, front.1.now)) result ≡ stripe_part.read bytes.now }
{
    let (stripe, rest) = u32_at(bytes)?;
    if is_stripe(stripe) {
        Some((stripe, rest))
    } else {
        None
    }
}

/// Whether a number is the stripe of a layout: a power of two from 16 to 65,536.
fn is_stripe(number: u32) -> bool
    ensures { result ≡ is_stripe number }
{
    16 <= number && number <= 65_536 && number.is_power_of_two()
}

/// Puts a head at the end of `out`. On want of memory only a front of it stands there.
pub fn put_head(head: Head, out: &mut Vec<u8>) -> Result<(), AllocError>
    ensures ok { OnOk result (out.new.items ≡ out.old.items ++ head_text head) }
    ensures err { OnErr result ((front : List ℕ) × (out.new.items ≡ out.old.items ++ front)) }
{
    if head.form == 1 {
        return put_fields(FIRST_MARK, head, out);
    }
    put_fields(SECOND_MARK, head, out)?;
    put_u32(head.stripe, out)
}

/// Puts a mark at the end of `out`, and a head's key and count of bytes behind it.
fn put_fields(mark: [u8; 4], head: Head, out: &mut Vec<u8>) -> Result<(), AllocError>
    ensures ok { OnOk result (out.new.items ≡ out.old.items ++ (mark ++ fields.text (head.key, head.len))) }
    ensures err { OnErr result ((front : List ℕ) × (out.new.items ≡ out.old.items ++ front)) }
{
    out.extend_from_slice(&mark)?;
    put_key(head.key, out)?;
    put_u32(head.len, out)
}

/// Puts a chunk's key at the end of `out`: file, index, slot and version. On want of memory only a
/// front of it stands there.
pub fn put_key(key: ChunkKey, out: &mut Vec<u8>) -> Result<(), AllocError>
    ensures ok { OnOk result (out.new.items ≡ out.old.items ++ chunk_key.text key) }
    ensures err { OnErr result ((front : List ℕ) × (out.new.items ≡ out.old.items ++ front)) }
{
    put_block(key.block, out)?;
    put_u8(key.slot, out)?;
    put_u32(key.version, out)
}

/// Puts the file and index of a block at the end of `out`. On want of memory only a front of them
/// stands there.
pub fn put_block(id: BlockId, out: &mut Vec<u8>) -> Result<(), AllocError>
    ensures ok { OnOk result (out.new.items ≡ out.old.items ++ block.text id) }
    ensures err { OnErr result ((front : List ℕ) × (out.new.items ≡ out.old.items ++ front)) }
{
    put_u32(id.file, out)?;
    put_u32(id.index, out)
}
