//! Puts the record of a request at the end of bytes.
ghost use Rattle.std.specs.Prelude.{◌≡◌, ◌++◌, OnOk, OnErr};
ghost use Rattle.std.specs.Int.{w16, w32, w64};
ghost use Rattle.qfs_spelling.specs.Fronts.{Extends, numbered};
ghost use Rattle.qfs_model_disks.specs.LogRecord.{IsLogRecord, IsSpelledRequest, creating};
ghost use Rattle.qfs_model_disks.specs.LogRecord.{granting, greeting, log_body, log_record, moving};
ghost use Rattle.qfs_model_disks.specs.LogRecord.{paths, recovering, request_text, settling};
ghost use Rattle.qfs_model_disks.specs.Values.{from_one, path, slot_id};
ghost use Rattle.qfs_record.specs.ChunkRecord.{chunk_key};
ghost use Rattle.qfs_record.specs.Part.{listed, number, optional, pair};

use qfs_base::chunk::BlockId;
use qfs_base::lists::KeyList;
use qfs_base::numbers::{ActorId, LeaseId, Life, ServerId, Slot, Version};
use qfs_base::path::Path;
use qfs_base::request::{MetaRequest, SlotId};
use qfs_record::{put_block, put_u8, put_u16, put_u32, put_u64};
use qfs_spelling::{Spelled, put_flag, put_of_path, put_path, set_u32};
use std::alloc::AllocError;

/// Puts the record of an actor's request at the end of `out`: how many bytes its body has, in four
/// bytes that don't count, and the body. The request is one that is logged, its numbers are in
/// their ranges, and its body has fewer than 2^32 bytes. On want of memory `out` stays as it was.
pub fn write_log(actor: ActorId, request: &MetaRequest, out: &mut Vec<u8>) -> Result<(), AllocError>
    requires { IsLogRecord (actor, request.now) }
    ensures ok { OnOk result (out.new.items
        ≡ out.old.items ++ log_record.text (actor, request.now)) }
    ensures err { OnErr result (out.new.items ≡ out.old.items) }
{
    let start = out.len();
    let written = put_record(actor, request, out);
    if written.is_err() {
        out.truncate(start);
    }
    written
}

/// Puts the record at the end. On want of memory only a front of bytes more stands there.
fn put_record(actor: ActorId, request: &MetaRequest, out: &mut Vec<u8>) -> Result<(), AllocError>
    requires { IsLogRecord (actor, request.now) }
    ensures ok { OnOk result (out.new.items
        ≡ out.old.items ++ log_record.text (actor, request.now)) }
    ensures err { OnErr result (Extends out.old.items out.new.items) }
{
    let start = out.len();
    put_u32(0, out)?;
    put_body(actor, request, out)?;
    let len = out.len() - start - 4;
    set_u32(len as u32, start, out);
    Ok(())
}

/// Puts who asked and the request.
fn put_body(actor: ActorId, request: &MetaRequest, out: &mut Vec<u8>) -> Result<(), AllocError>
    requires { IsSpelledRequest request.now }
    ensures ok { OnOk result (out.new.items ≡ out.old.items ++ log_body.text (actor, request.now)) }
    ensures err { OnErr result (Extends out.old.items out.new.items) }
{
    put_u16(actor, out)?;
    put_request(request, out)
}

/// Puts the number of a request and its fields.
#[tactic(auto, unfolding(qfs_model_disks::specs::LogRecord::request_text))]
fn put_request(request: &MetaRequest, out: &mut Vec<u8>) -> Result<(), AllocError>
    requires { IsSpelledRequest request.now }
    ensures ok { OnOk result (out.new.items ≡ out.old.items ++ request_text request.now) }
    ensures err { OnErr result (Extends out.old.items out.new.items) }
{
    match request {
        MetaRequest::Mkdir { path } => put_of_path(1, path, out),
        MetaRequest::Rmdir { path } => put_of_path(2, path, out),
        MetaRequest::Remove { path } => put_of_path(3, path, out),
        MetaRequest::Rename { from, to } => put_rename(from, to, out),
        MetaRequest::Create { path, command, len } => put_create(path, *command, *len, out),
        MetaRequest::Grant {
            file,
            index,
            slot,
            again,
        } => {
            put_grant(
                BlockId {
                    file: *file,
                    index: *index,
                },
                *slot,
                *again,
                out,
            )
        }
        MetaRequest::Close { file } => put_of_u32(7, *file, out),
        MetaRequest::Abort { file } => put_of_u32(8, *file, out),
        MetaRequest::OpenFile { path } => put_of_path(9, path, out),
        MetaRequest::Release { lease } => put_of_u64(10, *lease, out),
        MetaRequest::RecoverAt { path, index, slot } => put_recover(path, *index, *slot, out),
        MetaRequest::HealNext { after } => put_heal(*after, out),
        MetaRequest::MoveAt {
            path,
            index,
            slot,
            to,
        } => put_move(path, *index, *slot, *to, out),
        MetaRequest::EvacNext { server, after } => put_evacuate(*server, *after, out),
        MetaRequest::BalanceNext => put_u8(15, out),
        MetaRequest::Confirm {
            block,
            slot,
            version,
            lease,
        } => { put_settling(16, *block, *slot, *version, *lease, out) }
        MetaRequest::Abandon {
            block,
            slot,
            version,
            lease,
        } => { put_settling(17, *block, *slot, *version, *lease, out) }
        MetaRequest::OrderNext { after } => put_of_u64(18, *after, out),
        MetaRequest::Swept { number } => put_of_u64(19, *number, out),
        MetaRequest::Hello { server, life, keys } => put_hello(*server, *life, keys, out),
        MetaRequest::Bye { server } => put_of_u16(21, *server, out),
        MetaRequest::Leave { server } => put_of_u16(22, *server, out),
        MetaRequest::Hibernate { server, ticks } => put_hibernate(*server, *ticks, out),
        MetaRequest::Tick => put_u8(24, out),
        MetaRequest::Drop { actor } => put_of_u16(25, *actor, out),
        _ => Ok(()),
    }
}

/// Puts a request of this number that has a number in two bytes alone: a server or an actor.
fn put_of_u16(kind: u8, value: u16, out: &mut Vec<u8>) -> Result<(), AllocError>
    ensures ok { OnOk result (out.new.items
        ≡ out.old.items ++ (numbered (number w16)).text (kind, value)) }
    ensures err { OnErr result (Extends out.old.items out.new.items) }
{
    put_u8(kind, out)?;
    put_u16(value, out)
}

/// Puts one that has a number in four bytes alone: a file.
fn put_of_u32(kind: u8, value: u32, out: &mut Vec<u8>) -> Result<(), AllocError>
    ensures ok { OnOk result (out.new.items
        ≡ out.old.items ++ (numbered (number w32)).text (kind, value)) }
    ensures err { OnErr result (Extends out.old.items out.new.items) }
{
    put_u8(kind, out)?;
    put_u32(value, out)
}

/// Puts one that has a number in eight bytes alone: a lease or a condemned copy.
fn put_of_u64(kind: u8, value: u64, out: &mut Vec<u8>) -> Result<(), AllocError>
    ensures ok { OnOk result (out.new.items
        ≡ out.old.items ++ (numbered (number w64)).text (kind, value)) }
    ensures err { OnErr result (Extends out.old.items out.new.items) }
{
    put_u8(kind, out)?;
    put_u64(value, out)
}

/// Puts a Rename.
fn put_rename(from: &Path, to: &Path, out: &mut Vec<u8>) -> Result<(), AllocError>
    ensures ok { OnOk result (out.new.items
        ≡ out.old.items ++ (numbered paths).text (4, (from.now, to.now))) }
    ensures err { OnErr result (Extends out.old.items out.new.items) }
{
    put_u8(4, out)?;
    put_path(from, out)?;
    put_path(to, out)
}

/// Puts a Create.
fn put_create(names: &Path, command: u16, len: u32, out: &mut Vec<u8>) -> Result<(), AllocError>
    ensures ok { OnOk result (out.new.items
        ≡ out.old.items ++ (numbered creating).text (5, (names.now, (command, len)))) }
    ensures err { OnErr result (Extends out.old.items out.new.items) }
{
    put_u8(5, out)?;
    put_path(names, out)?;
    put_u16(command, out)?;
    put_u32(len, out)
}

/// Puts a Grant.
fn put_grant(id: BlockId, slot: Slot, again: bool, out: &mut Vec<u8>) -> Result<(), AllocError>
    ensures ok { OnOk result (out.new.items
        ≡ out.old.items ++ (numbered granting).text (6, (id, (slot, again)))) }
    ensures err { OnErr result (Extends out.old.items out.new.items) }
{
    put_u8(6, out)?;
    put_block(id, out)?;
    put_u8(slot, out)?;
    put_flag(again, out)
}

/// Puts a RecoverAt.
fn put_recover(names: &Path, index: u32, slot: Slot, out: &mut Vec<u8>) -> Result<(), AllocError>
    ensures ok { OnOk result (out.new.items
        ≡ out.old.items ++ (numbered recovering).text (11, (names.now, (index, slot)))) }
    ensures err { OnErr result (Extends out.old.items out.new.items) }
{
    put_u8(11, out)?;
    put_path(names, out)?;
    put_u32(index, out)?;
    put_u8(slot, out)
}

/// Puts a HealNext.
fn put_heal(after: Option<SlotId>, out: &mut Vec<u8>) -> Result<(), AllocError>
    requires { (optional slot_id).Fits after }
    ensures ok { OnOk result (out.new.items
        ≡ out.old.items ++ (numbered (optional slot_id)).text (12, after)) }
    ensures err { OnErr result (Extends out.old.items out.new.items) }
{
    put_u8(12, out)?;
    after.put(out)
}

/// Puts a MoveAt.
fn put_move(
    names: &Path,
    index: u32,
    slot: Slot,
    to: ServerId,
    out: &mut Vec<u8>,
) -> Result<(), AllocError>
    ensures ok { OnOk result (out.new.items
        ≡ out.old.items ++ (numbered moving).text (13, (names.now, (index, (slot, to))))) }
    ensures err { OnErr result (Extends out.old.items out.new.items) }
{
    put_u8(13, out)?;
    put_path(names, out)?;
    put_u32(index, out)?;
    put_u8(slot, out)?;
    put_u16(to, out)
}

/// Puts an EvacNext.
fn put_evacuate(
    server: ServerId,
    after: Option<SlotId>,
    out: &mut Vec<u8>,
) -> Result<(), AllocError>
    requires { (optional slot_id).Fits after }
    ensures ok { OnOk result (out.new.items
        ≡ out.old.items ++ (numbered (pair from_one (optional slot_id))).text (14, (server, after))) }
    ensures err { OnErr result (Extends out.old.items out.new.items) }
{
    put_u8(14, out)?;
    put_u16(server, out)?;
    after.put(out)
}

/// Puts a Confirm or an Abandon.
fn put_settling(
    kind: u8,
    id: BlockId,
    slot: Slot,
    version: Version,
    lease: LeaseId,
    out: &mut Vec<u8>,
) -> Result<(), AllocError>
    ensures ok { OnOk result (out.new.items
        ≡ out.old.items ++ (numbered settling).text (kind, (id, (slot, (version, lease))))) }
    ensures err { OnErr result (Extends out.old.items out.new.items) }
{
    put_u8(kind, out)?;
    put_block(id, out)?;
    put_u8(slot, out)?;
    put_u32(version, out)?;
    put_u64(lease, out)
}

/// Puts a Hello.
fn put_hello(
    server: ServerId,
    life: Life,
    keys: &KeyList,
    out: &mut Vec<u8>,
) -> Result<(), AllocError>
    requires { (listed chunk_key).Fits keys.now }
    ensures ok { OnOk result (out.new.items
        ≡ out.old.items ++ (numbered greeting).text (20, (server, (life, keys.now)))) }
    ensures err { OnErr result (Extends out.old.items out.new.items) }
{
    put_u8(20, out)?;
    put_u16(server, out)?;
    put_u32(life, out)?;
    keys.put(out)
}

/// Puts a Hibernate.
fn put_hibernate(server: ServerId, ticks: u32, out: &mut Vec<u8>) -> Result<(), AllocError>
    ensures ok { OnOk result (out.new.items
        ≡ out.old.items ++ (numbered (pair from_one (number w32))).text (23, (server, ticks))) }
    ensures err { OnErr result (Extends out.old.items out.new.items) }
{
    put_u8(23, out)?;
    put_u16(server, out)?;
    put_u32(ticks, out)
}
