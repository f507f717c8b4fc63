//! What each request that isn't refused does with the copies and the device.
ghost use Rattle.std.specs.Prelude.{◌≡◌, ℕ, ◌<◌, ◌≤◌, ◌⊎◌, false, length, is_some, IfOk};
ghost use Rattle.std.specs.Option.{ForSome};
ghost use Rattle.qfs_base.specs.Key.{key_cmp};
ghost use Rattle.qfs_base.specs.KeyMap.{has_key};
ghost use Rattle.qfs_base.specs.Shape.{IsStripe};
ghost use Rattle.qfs_base.specs.Sizes.{SLOTS, MOST_CHUNK_BYTES};
ghost use Rattle.qfs_record.specs.ChunkRecord.{IsChunk, chunk_record};
ghost use Rattle.qfs_store.specs.Serves.{PutLeaves, IsPart, FetchLeaves, EraseLeaves, WipeLeaves, InventoryIs, StartLeaves, up_after, failure, Counted};

use crate::copies::{Copies, CopySize};
use crate::starting::{copies_on, head_bytes};
use qfs_base::chunk::ChunkKey;
use qfs_base::lists::Bytes;
use qfs_base::reply::{ChunkAnswer, ChunkReply};
use qfs_device::{ChunkDevice, DeviceError};
use qfs_record::write_chunk;
use std::alloc::{AllocError, Global};

/// Stores a copy under a key that has none, in its form. On want of memory, and where the device
/// fails, the copies stay.
pub fn put<D: ChunkDevice>(
    alloc: Global,
    device: &mut D,
    copies: &mut Copies,
    key: ChunkKey,
    bytes: &Bytes,
    form: u8,
    stripe: u32,
) -> ChunkAnswer
    requires slot { key.slot < SLOTS }
    requires size { length bytes.now ≤ MOST_CHUNK_BYTES }
    requires form { (form ≡ 1) ⊎ (form ≡ 2) }
    requires stripe { IsStripe stripe }
    requires absent { has_key key_cmp copies.old key ≡ false }
    ensures fits { IsChunk stripe key (record { form = form; bytes = bytes.now }) }
    ensures put { PutLeaves key (record { form = form; len = length bytes.now })
        (chunk_record stripe key (record { form = form; bytes = bytes.now }))
        result copies.old copies.new (D.told device.old) (D.told device.new) }
    ensures tells { is_some (D.told device.new) ≡ is_some (D.told device.old) }
    ensures counted { Counted result (D.faults device.old) (D.faults device.new) }
{
    let size = CopySize {
        form,
        len: bytes.len() as u32,
    };
    match spelled(alloc, key, bytes.as_slice(), form, stripe) {
        Ok(record) => store(device, copies, key, size, &record),
        Err(_) => ChunkAnswer::NoMemory,
    }
}

/// The record of a copy, in its form.
fn spelled(
    alloc: Global,
    key: ChunkKey,
    bytes: &[u8],
    form: u8,
    stripe: u32,
) -> Result<Vec<u8>, AllocError>
    requires slot { key.slot < SLOTS }
    requires size { length bytes.now ≤ MOST_CHUNK_BYTES }
    requires form { (form ≡ 1) ⊎ (form ≡ 2) }
    requires stripe { IsStripe stripe }
    ensures fits { IsChunk stripe key (record { form = form; bytes = bytes.now }) }
    ensures made { IfOk result (λ made. made.items
        ≡ chunk_record stripe key (record { form = form; bytes = bytes.now })) }
{
    let mut record = Vec::new(alloc);
    let named = if form == 1 { 0 } else { stripe };
    write_chunk(key, bytes, form, named, &mut record)?;
    Ok(record)
}

/// Puts a record under a key that has no copy, and knows of the copy from then on.
fn store<D: ChunkDevice>(
    device: &mut D,
    copies: &mut Copies,
    key: ChunkKey,
    size: CopySize,
    spelled: &[u8],
) -> ChunkAnswer
    requires absent { has_key key_cmp copies.old key ≡ false }
    ensures put { PutLeaves key size spelled.now result copies.old copies.new
        (D.told device.old) (D.told device.new) }
    ensures tells { is_some (D.told device.new) ≡ is_some (D.told device.old) }
    ensures counted { Counted result (D.faults device.old) (D.faults device.new) }
{
    match copies.insert(key, size) {
        Ok(()) => match device.write(key, spelled) {
            Ok(()) => ChunkAnswer::Stored,
            Err(error) => {
                copies.remove(&key);
                failed(error)
            }
        },
        Err(_) => ChunkAnswer::NoMemory,
    }
}

/// The answer where the device failed so.
fn failed(error: DeviceError) -> ChunkAnswer
    ensures { result ≡ failure error }
{
    match error {
        DeviceError::Failed => ChunkAnswer::Fault,
        DeviceError::NoMemory => ChunkAnswer::NoMemory,
    }
}

/// Reads bytes of a copy from `from` on into the room, as many as it is long. The room comes back
/// with the answer, after a failure as zeros.
pub fn fetch<D: ChunkDevice>(
    device: &mut D,
    key: ChunkKey,
    size: CopySize,
    from: u32,
    room: Bytes,
) -> ChunkReply
    requires lies { ForSome (D.told device.old) (λ held. IsPart held key size from (length room)) }
    ensures filled { FetchLeaves key size from (length room) result.answer result.room
        (D.told device.old) (D.told device.new) }
    ensures tells { is_some (D.told device.new) ≡ is_some (D.told device.old) }
    ensures counted { Counted result.answer (D.faults device.old) (D.faults device.new) }
{
    let mut room = room.into_vec();
    let answer = fill(device, key, size, from, &mut room);
    ChunkReply {
        answer,
        room: Bytes::from_vec(room),
    }
}

/// Reads bytes of a copy from `from` on into the room.
fn fill<D: ChunkDevice>(
    device: &mut D,
    key: ChunkKey,
    size: CopySize,
    from: u32,
    room: &mut [u8],
) -> ChunkAnswer
    requires lies { ForSome (D.told device.old)
        (λ held. IsPart held key size from (length room.old)) }
    ensures filled { FetchLeaves key size from (length room.old) result room.new
        (D.told device.old) (D.told device.new) }
    ensures tells { is_some (D.told device.new) ≡ is_some (D.told device.old) }
    ensures counted { Counted result (D.faults device.old) (D.faults device.new) }
{
    let at = head_bytes(size.form).saturating_add(from);
    match device.read(key, at, room) {
        Ok(()) => ChunkAnswer::Fetched,
        Err(_) => {
            room.fill(0);
            ChunkAnswer::Fault
        }
    }
}

/// Deletes the copy under a key.
pub fn erase<D: ChunkDevice>(device: &mut D, copies: &mut Copies, key: ChunkKey) -> ChunkAnswer
    ensures erased { EraseLeaves key result copies.old copies.new
        (D.told device.old) (D.told device.new) }
    ensures tells { is_some (D.told device.new) ≡ is_some (D.told device.old) }
    ensures counted { Counted result (D.faults device.old) (D.faults device.new) }
{
    match device.remove(key) {
        Ok(()) => {
            copies.remove(&key);
            ChunkAnswer::Erased
        }
        Err(_) => ChunkAnswer::Fault,
    }
}

/// Empties the server and begins its next life.
pub fn wipe<D: ChunkDevice>(device: &mut D, copies: &mut Copies) -> ChunkAnswer
    ensures wiped { WipeLeaves result copies.old copies.new
        (D.told device.old) (D.told device.new) }
    ensures tells { is_some (D.told device.new) ≡ is_some (D.told device.old) }
    ensures counted { Counted result (D.faults device.old) (D.faults device.new) }
{
    match device.wipe() {
        Ok(()) => {
            copies.clear();
            ChunkAnswer::Wiped {
                life: device.life(),
            }
        }
        Err(_) => ChunkAnswer::Fault,
    }
}

/// Brings a server up. One that was down has the copies that stand on its device.
pub fn start<D: ChunkDevice>(
    alloc: Global,
    device: &mut D,
    stripe: u32,
    up: &mut bool,
    copies: &mut Copies,
) -> ChunkAnswer
    ensures started { StartLeaves stripe up.old result copies.old copies.new
        (D.told device.old) (D.told device.new) }
    ensures up { up.new ≡ up_after result up.old }
    ensures tells { is_some (D.told device.new) ≡ is_some (D.told device.old) }
    ensures counted { Counted result (D.faults device.old) (D.faults device.new) }
{
    if *up {
        return ChunkAnswer::Started {
            life: device.life(),
        };
    }
    match copies_on(alloc, device, stripe) {
        Ok(found) => {
            copies.replace(found);
            *up = true;
            ChunkAnswer::Started {
                life: device.life(),
            }
        }
        Err(error) => failed(error),
    }
}

/// Lists the copies, rising by key.
pub fn inventory<D: ChunkDevice>(alloc: Global, device: &D, copies: &Copies) -> ChunkAnswer
    ensures listed { InventoryIs result copies.now (D.told device.now) }
    ensures counted { (faults : ℕ) → Counted result faults faults }
{
    match copies.keys(alloc) {
        Ok(keys) => ChunkAnswer::Inventory {
            life: device.life(),
            keys,
        },
        Err(_) => ChunkAnswer::NoMemory,
    }
}
