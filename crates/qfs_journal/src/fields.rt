//! The fields of each kind of request at the front of bytes. Each answers the request and what
//! follows it, or None where no front of the bytes spells its fields.
ghost use Rattle.std.specs.Prelude.{◌≡◌, IfOk};
ghost use Rattle.std.specs.Int.{w16, w32, w64};
ghost use Rattle.qfs_base.specs.declared.request.MetaRequest.TheVariants as Ask;
ghost use Rattle.qfs_spelling.specs.Fronts.{Finds, front_of};
ghost use Rattle.qfs_model_disks.specs.LogRecord.{creating, granting, greeting, moving, paths};
ghost use Rattle.qfs_model_disks.specs.LogRecord.{reads, recovering, settling};
ghost use Rattle.qfs_model_disks.specs.Values.{file_length, from_one, path, slot_id};
ghost use Rattle.qfs_record.specs.ChunkRecord.{slot};
ghost use Rattle.qfs_record.specs.Part.{number, optional, pair};

use qfs_base::chunk::BlockId;
use qfs_base::listing::Listing;
use qfs_base::numbers::{ServerId, Slot};
use qfs_base::request::MetaRequest;
use qfs_record::{block_at, slot_at, u16_at, u32_at, u64_at};
use qfs_spelling::{Spelled, file_length_at, flag_at, from_one_at, path_at};
use std::alloc::{AllocError, Global};

/// The fields of a Mkdir.
pub fn mkdir_at(alloc: Global, bytes: &[u8]) -> Result<Option<(MetaRequest, &[u8])>, AllocError>
    ensures { IfOk result (λ found. front_of found ≡ reads path (λ p. Ask.Mkdir p) bytes.now) }
{
    let Some((path, rest)) = path_at(alloc, bytes)? else {
        return Ok(None);
    };
    Ok(Some((MetaRequest::Mkdir { path }, rest)))
}

/// The fields of an Rmdir.
pub fn rmdir_at(alloc: Global, bytes: &[u8]) -> Result<Option<(MetaRequest, &[u8])>, AllocError>
    ensures { IfOk result (λ found. front_of found ≡ reads path (λ p. Ask.Rmdir p) bytes.now) }
{
    let Some((path, rest)) = path_at(alloc, bytes)? else {
        return Ok(None);
    };
    Ok(Some((MetaRequest::Rmdir { path }, rest)))
}

/// The fields of a Remove.
pub fn remove_at(alloc: Global, bytes: &[u8]) -> Result<Option<(MetaRequest, &[u8])>, AllocError>
    ensures { IfOk result (λ found. front_of found ≡ reads path (λ p. Ask.Remove p) bytes.now) }
{
    let Some((path, rest)) = path_at(alloc, bytes)? else {
        return Ok(None);
    };
    Ok(Some((MetaRequest::Remove { path }, rest)))
}

/// The fields of a Rename.
pub fn rename_at(alloc: Global, bytes: &[u8]) -> Result<Option<(MetaRequest, &[u8])>, AllocError>
    ensures { IfOk result (λ found. front_of found
        ≡ reads paths (λ v. Ask.Rename v.0 v.1) bytes.now) }
{
    let Some((from, rest)) = path_at(alloc, bytes)? else {
        return Ok(None);
    };
    let Some((to, rest)) = path_at(alloc, rest)? else {
        return Ok(None);
    };
    Ok(Some((MetaRequest::Rename { from, to }, rest)))
}

/// The fields of a Create.
pub fn create_at(alloc: Global, bytes: &[u8]) -> Result<Option<(MetaRequest, &[u8])>, AllocError>
    ensures { IfOk result (λ found. front_of found
        ≡ reads creating (λ v. Ask.Create v.0 v.1.0 v.1.1) bytes.now) }
{
    let Some((path, rest)) = path_at(alloc, bytes)? else {
        return Ok(None);
    };
    let Some(((command, len), rest)) = made_at(rest) else {
        return Ok(None);
    };
    Ok(Some((MetaRequest::Create { path, command, len }, rest)))
}

/// A command's number, and the length of the file that it makes.
fn made_at(bytes: &[u8]) -> Option<((u16, u32), &[u8])>
    ensures { Finds (pair (number w16) file_length) bytes.now result }
{
    let (command, rest) = u16_at(bytes)?;
    let (len, rest) = file_length_at(rest)?;
    Some(((command, len), rest))
}

/// The fields of a Grant.
pub fn grant_at(bytes: &[u8]) -> Option<(MetaRequest, &[u8])>
    ensures { front_of result
        ≡ reads granting (λ v. Ask.Grant v.0.file v.0.index v.1.0 v.1.1) bytes.now }
{
    let (BlockId { file, index }, rest) = block_at(bytes)?;
    let (slot, rest) = slot_at(rest)?;
    let (again, rest) = flag_at(rest)?;
    let request = MetaRequest::Grant {
        file,
        index,
        slot,
        again,
    };
    Some((request, rest))
}

/// The fields of a Close.
pub fn close_at(bytes: &[u8]) -> Option<(MetaRequest, &[u8])>
    ensures { front_of result ≡ reads (number w32) (λ file. Ask.Close file) bytes.now }
{
    let (file, rest) = u32_at(bytes)?;
    Some((MetaRequest::Close { file }, rest))
}

/// The fields of an Abort.
pub fn abort_at(bytes: &[u8]) -> Option<(MetaRequest, &[u8])>
    ensures { front_of result ≡ reads (number w32) (λ file. Ask.Abort file) bytes.now }
{
    let (file, rest) = u32_at(bytes)?;
    Some((MetaRequest::Abort { file }, rest))
}

/// The fields of an OpenFile.
pub fn open_at(alloc: Global, bytes: &[u8]) -> Result<Option<(MetaRequest, &[u8])>, AllocError>
    ensures { IfOk result (λ found. front_of found ≡ reads path (λ p. Ask.OpenFile p) bytes.now) }
{
    let Some((path, rest)) = path_at(alloc, bytes)? else {
        return Ok(None);
    };
    Ok(Some((MetaRequest::OpenFile { path }, rest)))
}

/// The fields of a Release.
pub fn release_at(bytes: &[u8]) -> Option<(MetaRequest, &[u8])>
    ensures { front_of result ≡ reads (number w64) (λ lease. Ask.Release lease) bytes.now }
{
    let (lease, rest) = u64_at(bytes)?;
    Some((MetaRequest::Release { lease }, rest))
}

/// The index of a block, and a slot of it.
fn place_at(bytes: &[u8]) -> Option<((u32, Slot), &[u8])>
    ensures { Finds (pair (number w32) slot) bytes.now result }
{
    let (index, rest) = u32_at(bytes)?;
    let (slot, rest) = slot_at(rest)?;
    Some(((index, slot), rest))
}

/// The fields of a RecoverAt.
pub fn recover_at(alloc: Global, bytes: &[u8]) -> Result<Option<(MetaRequest, &[u8])>, AllocError>
    ensures { IfOk result (λ found. front_of found
        ≡ reads recovering (λ v. Ask.RecoverAt v.0 v.1.0 v.1.1) bytes.now) }
{
    let Some((path, rest)) = path_at(alloc, bytes)? else {
        return Ok(None);
    };
    let Some(((index, slot), rest)) = place_at(rest) else {
        return Ok(None);
    };
    Ok(Some((MetaRequest::RecoverAt { path, index, slot }, rest)))
}

/// The fields of a HealNext.
pub fn heal_at(alloc: Global, bytes: &[u8]) -> Result<Option<(MetaRequest, &[u8])>, AllocError>
    ensures { IfOk result (λ found. front_of found
        ≡ reads (optional slot_id) (λ after. Ask.HealNext after) bytes.now) }
{
    let Some((after, rest)) = Option::read_at(alloc, bytes)? else {
        return Ok(None);
    };
    Ok(Some((MetaRequest::HealNext { after }, rest)))
}

/// The index of a block, a slot of it, and a server.
fn target_at(bytes: &[u8]) -> Option<((u32, (Slot, ServerId)), &[u8])>
    ensures { Finds (pair (number w32) (pair slot from_one)) bytes.now result }
{
    let (index, rest) = u32_at(bytes)?;
    let (slot, rest) = slot_at(rest)?;
    let (to, rest) = from_one_at(rest)?;
    Some(((index, (slot, to)), rest))
}

/// The fields of a MoveAt.
pub fn move_at(alloc: Global, bytes: &[u8]) -> Result<Option<(MetaRequest, &[u8])>, AllocError>
    ensures { IfOk result (λ found. front_of found
        ≡ reads moving (λ v. Ask.MoveAt v.0 v.1.0 v.1.1.0 v.1.1.1) bytes.now) }
{
    let Some((path, rest)) = path_at(alloc, bytes)? else {
        return Ok(None);
    };
    let Some(((index, (slot, to)), rest)) = target_at(rest) else {
        return Ok(None);
    };
    let request = MetaRequest::MoveAt {
        path,
        index,
        slot,
        to,
    };
    Ok(Some((request, rest)))
}

/// The fields of an EvacNext.
pub fn evacuate_at(alloc: Global, bytes: &[u8]) -> Result<Option<(MetaRequest, &[u8])>, AllocError>
    ensures { IfOk result (λ found. front_of found
        ≡ reads (pair from_one (optional slot_id)) (λ v. Ask.EvacNext v.0 v.1) bytes.now) }
{
    let Some((server, rest)) = from_one_at(bytes) else {
        return Ok(None);
    };
    let Some((after, rest)) = Option::read_at(alloc, rest)? else {
        return Ok(None);
    };
    Ok(Some((MetaRequest::EvacNext { server, after }, rest)))
}

/// The fields of a Confirm.
pub fn confirm_at(bytes: &[u8]) -> Option<(MetaRequest, &[u8])>
    ensures { front_of result
        ≡ reads settling (λ v. Ask.Confirm v.0 v.1.0 v.1.1.0 v.1.1.1) bytes.now }
{
    let (block, rest) = block_at(bytes)?;
    let (slot, rest) = slot_at(rest)?;
    let (version, rest) = u32_at(rest)?;
    let (lease, rest) = u64_at(rest)?;
    let request = MetaRequest::Confirm {
        block,
        slot,
        version,
        lease,
    };
    Some((request, rest))
}

/// The fields of an Abandon.
pub fn abandon_at(bytes: &[u8]) -> Option<(MetaRequest, &[u8])>
    ensures { front_of result
        ≡ reads settling (λ v. Ask.Abandon v.0 v.1.0 v.1.1.0 v.1.1.1) bytes.now }
{
    let (block, rest) = block_at(bytes)?;
    let (slot, rest) = slot_at(rest)?;
    let (version, rest) = u32_at(rest)?;
    let (lease, rest) = u64_at(rest)?;
    let request = MetaRequest::Abandon {
        block,
        slot,
        version,
        lease,
    };
    Some((request, rest))
}

/// The fields of an OrderNext.
pub fn order_at(bytes: &[u8]) -> Option<(MetaRequest, &[u8])>
    ensures { front_of result ≡ reads (number w64) (λ after. Ask.OrderNext after) bytes.now }
{
    let (after, rest) = u64_at(bytes)?;
    Some((MetaRequest::OrderNext { after }, rest))
}

/// The fields of a Swept.
pub fn swept_at(bytes: &[u8]) -> Option<(MetaRequest, &[u8])>
    ensures { front_of result ≡ reads (number w64) (λ condemned. Ask.Swept condemned) bytes.now }
{
    let (number, rest) = u64_at(bytes)?;
    Some((MetaRequest::Swept { number }, rest))
}

/// The fields of a Hello.
pub fn hello_at(alloc: Global, bytes: &[u8]) -> Result<Option<(MetaRequest, &[u8])>, AllocError>
    ensures { IfOk result (λ found. front_of found
        ≡ reads greeting (λ v. Ask.Hello v.0 v.1.0 v.1.1) bytes.now) }
{
    let Some((server, rest)) = from_one_at(bytes) else {
        return Ok(None);
    };
    let Some((life, rest)) = u32_at(rest) else {
        return Ok(None);
    };
    let Some((keys, rest)) = Listing::read_at(alloc, rest)? else {
        return Ok(None);
    };
    Ok(Some((MetaRequest::Hello { server, life, keys }, rest)))
}

/// The fields of a Bye.
pub fn bye_at(bytes: &[u8]) -> Option<(MetaRequest, &[u8])>
    ensures { front_of result ≡ reads from_one (λ server. Ask.Bye server) bytes.now }
{
    let (server, rest) = from_one_at(bytes)?;
    Some((MetaRequest::Bye { server }, rest))
}

/// The fields of a Leave.
pub fn leave_at(bytes: &[u8]) -> Option<(MetaRequest, &[u8])>
    ensures { front_of result ≡ reads from_one (λ server. Ask.Leave server) bytes.now }
{
    let (server, rest) = from_one_at(bytes)?;
    Some((MetaRequest::Leave { server }, rest))
}

/// The fields of a Hibernate.
pub fn hibernate_at(bytes: &[u8]) -> Option<(MetaRequest, &[u8])>
    ensures { front_of result
        ≡ reads (pair from_one (number w32)) (λ v. Ask.Hibernate v.0 v.1) bytes.now }
{
    let (server, rest) = from_one_at(bytes)?;
    let (ticks, rest) = u32_at(rest)?;
    Some((MetaRequest::Hibernate { server, ticks }, rest))
}

/// The fields of a Drop.
pub fn drop_at(bytes: &[u8]) -> Option<(MetaRequest, &[u8])>
    ensures { front_of result ≡ reads from_one (λ actor. Ask.Drop actor) bytes.now }
{
    let (actor, rest) = from_one_at(bytes)?;
    Some((MetaRequest::Drop { actor }, rest))
}
