//! The rows of an image's lists in their spellings.
ghost use Rattle.std.specs.Prelude.{◌≡◌, ◌++◌, OnOk, OnErr};
ghost use Rattle.qfs_spelling.specs.Sets.{made, set_record, set_row};
ghost use Rattle.qfs_spelling.specs.Fronts.{Extends, Finds};
ghost use Rattle.qfs_model_disks.specs.Image.{condemned, condemned_row, dropped_actor, grant};
ghost use Rattle.qfs_model_disks.specs.Image.{lease};
ghost use Rattle.qfs_model_disks.specs.Image.{server_view, tree_row};
ghost use Rattle.qfs_model_disks.specs.Values.{copy};

use crate::sets::{put_set, set_at};
use crate::spelled::Spelled;
use crate::values::{flag_at, from_one_at, path_at, put_flag, put_path};
use qfs_base::chunk::Copy;
use qfs_base::image::{
    CondemnedRow, DroppedActor, Grant, Lease, ServerView, SlotRecord, SlotRow, TreeRow,
};
use qfs_base::listing::Listing;
use qfs_base::reply::Condemned;
use qfs_record::{
    block_at, put_block, put_u8, put_u16, put_u32, put_u64, slot_at, u16_at, u32_at, u64_at,
};
use std::alloc::{AllocError, Global};

impl Spelled for ServerView {
    ghost part = { server_view };

    fn put(&self, out: &mut Vec<u8>) -> Result<(), AllocError> {
        put_flag(self.up, out)?;
        put_flag(self.leaving, out)?;
        put_u32(self.life, out)?;
        put_u64(self.until, out)
    }

    fn read_at(_alloc: Global, bytes: &[u8]) -> Result<Option<(ServerView, &[u8])>, AllocError> {
        Ok(server_at(bytes))
    }
}

/// The view of a server at the front of bytes.
fn server_at(bytes: &[u8]) -> Option<(ServerView, &[u8])>
    ensures { Finds server_view bytes.now result }
{
    let (up, rest) = flag_at(bytes)?;
    let (leaving, rest) = flag_at(rest)?;
    let (life, rest) = u32_at(rest)?;
    let (until, rest) = u64_at(rest)?;
    let view = ServerView {
        up,
        leaving,
        life,
        until,
    };
    Some((view, rest))
}

impl Spelled for TreeRow {
    ghost part = { tree_row };

    fn put(&self, out: &mut Vec<u8>) -> Result<(), AllocError> {
        put_path(&self.path, out)?;
        put_u32(self.file, out)?;
        put_flag(self.closed, out)?;
        put_u16(self.actor, out)?;
        put_u16(self.command, out)?;
        put_u32(self.len, out)
    }

    fn read_at(alloc: Global, bytes: &[u8]) -> Result<Option<(TreeRow, &[u8])>, AllocError> {
        let Some((path, rest)) = path_at(alloc, bytes)? else {
            return Ok(None);
        };
        let Some(((file, (closed, (actor, (command, len)))), rest)) = made_at(rest) else {
            return Ok(None);
        };
        let row = TreeRow {
            path,
            file,
            closed,
            actor,
            command,
            len,
        };
        Ok(Some((row, rest)))
    }
}

/// What a row of the tree has beside its path: file, whether it is closed, actor, command and
/// length.
type Made = (u32, (bool, (u16, (u16, u32))));

/// What stands behind the path of a row of the tree.
fn made_at(bytes: &[u8]) -> Option<(Made, &[u8])>
    ensures { Finds made bytes.now result }
{
    let (file, rest) = u32_at(bytes)?;
    let (closed, rest) = flag_at(rest)?;
    let (actor, rest) = u16_at(rest)?;
    let (command, rest) = u16_at(rest)?;
    let (len, rest) = u32_at(rest)?;
    Some(((file, (closed, (actor, (command, len)))), rest))
}

impl Spelled for Copy {
    ghost part = { copy };

    fn put(&self, out: &mut Vec<u8>) -> Result<(), AllocError> {
        put_u16(self.server, out)?;
        put_u32(self.life, out)?;
        put_u32(self.version, out)
    }

    fn read_at(_alloc: Global, bytes: &[u8]) -> Result<Option<(Copy, &[u8])>, AllocError> {
        Ok(copy_at(bytes))
    }
}

/// A copy at the front of bytes.
fn copy_at(bytes: &[u8]) -> Option<(Copy, &[u8])>
    ensures { Finds copy bytes.now result }
{
    let (server, rest) = from_one_at(bytes)?;
    let (life, rest) = u32_at(rest)?;
    let (version, rest) = u32_at(rest)?;
    let copy = Copy {
        server,
        life,
        version,
    };
    Some((copy, rest))
}

impl Spelled for Grant {
    ghost part = { grant };

    fn put(&self, out: &mut Vec<u8>) -> Result<(), AllocError> {
        self.copy.put(out)?;
        put_u16(self.actor, out)?;
        put_u64(self.lease, out)
    }

    fn read_at(_alloc: Global, bytes: &[u8]) -> Result<Option<(Grant, &[u8])>, AllocError> {
        Ok(grant_at(bytes))
    }
}

/// A grant at the front of bytes.
fn grant_at(bytes: &[u8]) -> Option<(Grant, &[u8])>
    ensures { Finds grant bytes.now result }
{
    let (copy, rest) = copy_at(bytes)?;
    let (actor, rest) = from_one_at(rest)?;
    let (lease, rest) = u64_at(rest)?;
    let grant = Grant { copy, actor, lease };
    Some((grant, rest))
}

impl Spelled for SlotRow {
    ghost part = { set_row };

    fn put(&self, out: &mut Vec<u8>) -> Result<(), AllocError> {
        put_block(self.block, out)?;
        put_u8(self.slot, out)?;
        put_record(&self.state, out)
    }

    fn read_at(alloc: Global, bytes: &[u8]) -> Result<Option<(SlotRow, &[u8])>, AllocError> {
        let Some((block, rest)) = block_at(bytes) else {
            return Ok(None);
        };
        let Some((slot, rest)) = slot_at(rest) else {
            return Ok(None);
        };
        let Some((next, rest)) = u32_at(rest) else {
            return Ok(None);
        };
        let Some((current, rest)) = Option::read_at(alloc, rest)? else {
            return Ok(None);
        };
        let Some((grant, rest)) = Option::read_at(alloc, rest)? else {
            return Ok(None);
        };
        let Some((failed, rest)) = set_at(rest) else {
            return Ok(None);
        };
        let state = SlotRecord {
            next,
            current,
            grant,
            failed,
        };
        Ok(Some((SlotRow { block, slot, state }, rest)))
    }
}

/// Puts the record of a slot at the end of `out`. On want of memory only a front of it stands there.
fn put_record(state: &SlotRecord, out: &mut Vec<u8>) -> Result<(), AllocError>
    requires { set_record.Fits state.now }
    ensures ok { OnOk result (out.new.items ≡ out.old.items ++ set_record.text state.now) }
    ensures err { OnErr result (Extends out.old.items out.new.items) }
{
    put_u32(state.next, out)?;
    state.current.put(out)?;
    state.grant.put(out)?;
    put_set(state.failed, out)
}

impl Spelled for Lease {
    ghost part = { lease };

    fn put(&self, out: &mut Vec<u8>) -> Result<(), AllocError> {
        put_u64(self.lease, out)?;
        put_u16(self.actor, out)?;
        put_u32(self.file, out)?;
        put_u64(self.until, out)
    }

    fn read_at(_alloc: Global, bytes: &[u8]) -> Result<Option<(Lease, &[u8])>, AllocError> {
        Ok(lease_at(bytes))
    }
}

/// A lease at the front of bytes.
fn lease_at(bytes: &[u8]) -> Option<(Lease, &[u8])>
    ensures { Finds lease bytes.now result }
{
    let (lease, rest) = u64_at(bytes)?;
    let (actor, rest) = from_one_at(rest)?;
    let (file, rest) = u32_at(rest)?;
    let (until, rest) = u64_at(rest)?;
    let held = Lease {
        lease,
        actor,
        file,
        until,
    };
    Some((held, rest))
}

/// Puts a condemned copy at the end of `out`. On want of memory only a front of it stands there.
fn put_condemned(copy: &Condemned, out: &mut Vec<u8>) -> Result<(), AllocError>
    requires { condemned.Fits copy.now }
    ensures ok { OnOk result (out.new.items ≡ out.old.items ++ condemned.text copy.now) }
    ensures err { OnErr result (Extends out.old.items out.new.items) }
{
    put_u64(copy.number, out)?;
    put_block(copy.block, out)?;
    put_u8(copy.slot, out)?;
    copy.copy.put(out)
}

/// A condemned copy at the front of bytes.
fn condemned_at(bytes: &[u8]) -> Option<(Condemned, &[u8])>
    ensures { Finds condemned bytes.now result }
{
    let (number, rest) = u64_at(bytes)?;
    let (block, rest) = block_at(rest)?;
    let (slot, rest) = slot_at(rest)?;
    let (copy, rest) = copy_at(rest)?;
    let condemned = Condemned {
        number,
        block,
        slot,
        copy,
    };
    Some((condemned, rest))
}

impl Spelled for CondemnedRow {
    ghost part = { condemned_row };

    fn put(&self, out: &mut Vec<u8>) -> Result<(), AllocError> {
        put_condemned(&self.condemned, out)?;
        put_flag(self.ordered, out)?;
        self.blockers.put(out)
    }

    fn read_at(alloc: Global, bytes: &[u8]) -> Result<Option<(CondemnedRow, &[u8])>, AllocError> {
        let Some((condemned, rest)) = condemned_at(bytes) else {
            return Ok(None);
        };
        let Some((ordered, rest)) = flag_at(rest) else {
            return Ok(None);
        };
        let Some((blockers, rest)) = Listing::read_at(alloc, rest)? else {
            return Ok(None);
        };
        let row = CondemnedRow {
            condemned,
            ordered,
            blockers,
        };
        Ok(Some((row, rest)))
    }
}

impl Spelled for DroppedActor {
    ghost part = { dropped_actor };

    fn put(&self, out: &mut Vec<u8>) -> Result<(), AllocError> {
        put_u16(self.actor, out)?;
        put_u64(self.turn, out)
    }

    fn read_at(_alloc: Global, bytes: &[u8]) -> Result<Option<(DroppedActor, &[u8])>, AllocError> {
        Ok(dropped_at(bytes))
    }
}

/// An actor that was dropped at the front of bytes.
fn dropped_at(bytes: &[u8]) -> Option<(DroppedActor, &[u8])>
    ensures { Finds dropped_actor bytes.now result }
{
    let (actor, rest) = from_one_at(bytes)?;
    let (turn, rest) = u64_at(rest)?;
    Some((DroppedActor { actor, turn }, rest))
}
