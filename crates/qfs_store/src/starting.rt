//! How a server that was down finds its copies on its device.
ghost use Rattle.std.specs.Prelude.{◌≡◌, ℕ, ◌≤◌, [], ◌++◌, Some, is_some, IfOk, OnOk};
ghost use Rattle.std.specs.Option.{ForSome};
ghost use Rattle.std.specs.List.{fold};
ghost use Rattle.qfs_base.specs.Sizes.{FIRST_HEAD_BYTES};
ghost use Rattle.qfs_device.specs.Fault.{Counts, TakesNoMemory};
ghost use Rattle.qfs_device.specs.Held.{Held};
ghost use Rattle.qfs_model_server.specs.Chunk.{head_bytes};
ghost use Rattle.qfs_store.specs.Start.{noting, settled, copy_in, FindsOn, IsSized, HeadRead, KeyChecked};

use crate::copies::{Copies, CopySize};
use qfs_base::chunk::ChunkKey;
use qfs_base::sizes::{FIRST_HEAD_BYTES, SECOND_HEAD_BYTES};
use qfs_device::{ChunkDevice, DeviceError, KeySize, KeySizes};
use qfs_record::{Head, is_second, read_head};
use std::alloc::{AllocError, Global};

/// The bytes of a head of the first version, of one of the second, and of the stripe that the
/// second has more.
const FIRST: usize = FIRST_HEAD_BYTES as usize;

const SECOND: usize = SECOND_HEAD_BYTES as usize;

const MORE: usize = SECOND - FIRST;

/// The bytes of the head of a chunk record of this version.
#[tactic(auto, unfolding(qfs_model_server::specs::Chunk::head_bytes))]
pub fn head_bytes(form: u8) -> u32
    ensures { result ≡ head_bytes form }
{
    if form == 1 {
        FIRST_HEAD_BYTES
    } else {
        SECOND_HEAD_BYTES
    }
}

/// The copies on a device: the keys whose bytes are, whole, a chunk record that names the key, and
/// this stripe where its version names one. All memory is taken before the first read.
pub fn copies_on<D: ChunkDevice>(
    alloc: Global,
    device: &mut D,
    stripe: u32,
) -> Result<Copies, DeviceError>
    ensures found { FindsOn stripe result (D.told device.old) (D.told device.new) }
    ensures tells { is_some (D.told device.new) ≡ is_some (D.told device.old) }
    ensures counts { Counts (D.faults device.old) (D.faults device.new) result }
{
    let sizes = device.keys()?;
    let mut copies = candidates(alloc, &sizes)?;
    for chunk in &sizes {
        check(device, stripe, chunk, &mut copies)?;
    }
    Ok(copies)
}

/// The keys that may have copies: those whose bytes are enough for a head.
fn candidates(alloc: Global, sizes: &KeySizes) -> Result<Copies, AllocError>
    ensures { IfOk result (λ copies. copies ≡ fold noting [] sizes.now) }
{
    let mut copies = Copies::new(alloc);
    for chunk in sizes {
        note(&mut copies, chunk)?;
    }
    Ok(copies)
}

/// Notes a key that may have a copy.
fn note(copies: &mut Copies, chunk: &KeySize) -> Result<(), AllocError>
    ensures { OnOk result (copies.new ≡ noting copies.old chunk.now) }
{
    if chunk.size < FIRST_HEAD_BYTES as u64 {
        return Ok(());
    }
    copies.insert(chunk.key, CopySize { form: 1, len: 0 })
}

/// Reads the head under a noted key, and notes the size of the copy, or takes the key out where it
/// has none.
fn check<D: ChunkDevice>(
    device: &mut D,
    stripe: u32,
    chunk: &KeySize,
    copies: &mut Copies,
) -> Result<(), DeviceError>
    requires readable { ForSome (D.told device.old) (λ held. IsSized held chunk.now) }
    ensures checked { (held : Held) → D.told device.old ≡ Some held
        → KeyChecked stripe held (D.told device.new) chunk.now copies.old copies.new result }
    ensures tells { is_some (D.told device.new) ≡ is_some (D.told device.old) }
    ensures counts { Counts (D.faults device.old) (D.faults device.new) result }
    ensures no_memory { TakesNoMemory result }
{
    if chunk.size < FIRST_HEAD_BYTES as u64 {
        return Ok(());
    }
    let head = head_under(device, chunk)?;
    settle(copies, chunk.key, copy_in(stripe, chunk, head));
    Ok(())
}

/// Notes the size of the copy under a key, or takes the key out where there is none.
fn settle(copies: &mut Copies, key: ChunkKey, size: Option<CopySize>)
    ensures { copies.new ≡ settled copies.old key size }
{
    match size {
        Some(size) => copies.set(key, size),
        None => copies.remove(&key),
    }
}

/// The head under a key whose bytes are enough for one, or None where they begin with none.
fn head_under<D: ChunkDevice>(device: &mut D, chunk: &KeySize) -> Result<Option<Head>, DeviceError>
    requires long { FIRST_HEAD_BYTES ≤ chunk.now.size }
    requires readable { ForSome (D.told device.old) (λ held. IsSized held chunk.now) }
    ensures read { (held : Held) → D.told device.old ≡ Some held
        → HeadRead held (D.told device.new) chunk.now result }
    ensures tells { is_some (D.told device.new) ≡ is_some (D.told device.old) }
    ensures counts { Counts (D.faults device.old) (D.faults device.new) result }
    ensures no_memory { TakesNoMemory result }
{
    let mut first = [0u8; FIRST];
    device.read(chunk.key, 0, &mut first)?;
    if !is_second(&first) || chunk.size < SECOND_HEAD_BYTES as u64 {
        return Ok(read_head(&first));
    }
    let mut stripe = [0u8; MORE];
    device.read(chunk.key, FIRST_HEAD_BYTES, &mut stripe)?;
    Ok(read_head(&joined(&first, &stripe)))
}

/// The bytes of a head of the second version, whose stripe stands behind the others.
fn joined(first: &[u8; FIRST], stripe: &[u8; MORE]) -> [u8; SECOND]
    ensures { result ≡ first.now ++ stripe.now }
{
    let mut front = [0u8; SECOND];
    front[..FIRST].copy_from_slice(first);
    front[FIRST..].copy_from_slice(stripe);
    front
}

/// The size of the copy that a head tells of, where it names the key, the stripe, if it names one,
/// and as many bytes as there are.
fn copy_in(stripe: u32, chunk: &KeySize, head: Option<Head>) -> Option<CopySize>
    ensures { result ≡ copy_in stripe chunk.now.key chunk.now.size head }
{
    let head = head?;
    let is_whole = head_bytes(head.form) as u64 + head.len as u64 == chunk.size;
    if head.key == chunk.key && (head.form == 1 || head.stripe == stripe) && is_whole {
        Some(CopySize {
            form: head.form,
            len: head.len,
        })
    } else {
        None
    }
}
