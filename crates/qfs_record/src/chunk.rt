//! The record that a chunk server keeps of a chunk.

ghost use Rattle.std.specs.Prelude.{◌≡◌, ℕ, ◌-◌, ◌<◌, ◌≤◌, List, ◌++◌, length, take, drop, IfSome, Some, OnOk, OnErr};
ghost use Rattle.qfs_base.specs.declared.chunk.ChunkKey.{ChunkKey};
ghost use Rattle.qfs_model_server.specs.Chunk.{Chunk};
ghost use Rattle.qfs_record.specs.ChunkRecord.{IsNamed, head_text, named_stripe, IsChunk, chunk_record};

use crate::head::{Head, head_at, put_head};
use qfs_base::chunk::ChunkKey;
use qfs_base::sizes::SECOND_HEAD_BYTES;
use std::alloc::AllocError;

/// A chunk record at the front of some bytes. The chunk's bytes are the last `len` of the first
/// `length`.
#[derive(Clone, Copy, PartialEq, Eq)]
pub struct ChunkRead {
    pub key: ChunkKey,
    /// The version of the record: 1 or 2.
    pub form: u8,
    /// The stripe of the layout, in bytes, which the second version names; 0 in the first.
    pub stripe: u32,
    /// How many bytes the chunk has: at most 67,108,864.
    pub len: u32,
    /// How many bytes the record takes.
    pub length: usize,
}

/// Puts the record of a chunk at the end of `out`, in the version `form`: its head, and the bytes.
/// The slot is below 9, the chunk has at most 67,108,864 bytes, and `form` is 1, with stripe 0, or 2,
/// with the stripe of a layout. On want of memory `out` stays as it was.
pub fn write_chunk(
    key: ChunkKey,
    bytes: &[u8],
    form: u8,
    stripe: u32,
    out: &mut Vec<u8>,
) -> Result<(), AllocError>
    requires slot { key.slot < 9 }
    requires size { length bytes.now ≤ 67108864 }
    requires form { IsNamed form stripe }
    ensures ok { OnOk result (out.new.items ≡ out.old.items ++ chunk_record stripe key (record { form = form; bytes = bytes.now })) }
    ensures err { OnErr result (out.new.items ≡ out.old.items) }
{
    let head = Head {
        key,
        form,
        stripe,
        len: bytes.len() as u32,
    };
    let start = out.len();
    let written = write_parts(head, bytes, out);
    if written.is_err() {
        out.truncate(start);
    }
    written
}

/// Puts a head and the bytes of a chunk at the end of `out`. On want of memory only a front of them
/// stands there.
fn write_parts(head: Head, bytes: &[u8], out: &mut Vec<u8>) -> Result<(), AllocError>
    requires { length bytes.now ≤ 67108864 }
    ensures ok { OnOk result (out.new.items ≡ out.old.items ++ (head_text head ++ bytes.now)) }
    ensures err { OnErr result ((front : List ℕ) × (out.new.items ≡ out.old.items ++ front)) }
{
    out.reserve(SECOND_HEAD_BYTES as usize + bytes.len())?;
    put_head(head, out)?;
    out.extend_from_slice(bytes)
}

/// Reads the chunk record at the front of the input, in either version. None says that no front of
/// it is one.
pub fn read_chunk(input: &[u8]) -> Option<ChunkRead>
    ensures within { IfSome result (λ found. (found.length ≤ length input.now) × (found.len ≤ found.length)) }
    ensures found { IfSome result (λ found.
        let record_bytes = take found.length input.now in
        let chunk : Chunk = record { form = found.form; bytes = drop (found.length - found.len) record_bytes } in
        IsChunk found.stripe found.key chunk × (record_bytes ≡ chunk_record found.stripe found.key chunk)) }
    ensures stripe { IfSome result (λ found. found.stripe ≡ named_stripe found.form found.stripe) }
    ensures only { (stripe : ℕ) (key : ChunkKey) (chunk : Chunk) (rest : List ℕ) → IsChunk stripe key chunk →
        input.now ≡ chunk_record stripe key chunk ++ rest →
        result ≡ Some (record {
          key = key;
          form = chunk.form;
          stripe = named_stripe chunk.form stripe;
          len = length chunk.bytes;
          length = length (chunk_record stripe key chunk);
        }) }
{
    let (head, rest) = head_at(input)?;
    if rest.len() < head.len as usize {
        return None;
    }
    let Head {
        key,
        form,
        stripe,
        len,
    } = head;
    Some(ChunkRead {
        key,
        form,
        stripe,
        len,
        length: input.len() - rest.len() + len as usize,
    })
}

/// No chunk record is the front of another's, in whichever versions, so what was written is read
/// again, whatever follows.
pub fn chunk_records_are_apart()
    ensures { (stripe named : ℕ) (key other : ChunkKey) (chunk more : Chunk) (rest after : List ℕ) →
        IsChunk stripe key chunk → IsChunk named other more →
        chunk_record stripe key chunk ++ rest ≡ chunk_record named other more ++ after →
        (key ≡ other) × (chunk ≡ more) × (named_stripe chunk.form stripe ≡ named_stripe more.form named) × (rest ≡ after) }
{}
