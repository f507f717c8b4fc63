//! The requests of a put but for the grants: a file is created, and it is closed or given up.
ghost use Rattle.std.specs.Prelude.{◌≡◌, IfOk, OnErr};
ghost use Rattle.qfs_base.specs.declared.chunk.BlockId.{BlockId};
ghost use Rattle.qfs_model_meta.specs.PutRequests.{decide_create, decide_close, decide_abort};
ghost use Rattle.qfs_meta.specs.Kept.{IsKept};
ghost use Rattle.qfs_meta.specs.Loads.{loads_of};
ghost use Rattle.qfs_meta.specs.Serving.{Serves};

use crate::aborting::abort_file;
use crate::closing::{close_file, first_ungranted};
use crate::creating::add_file;
use crate::names::{add_refusal, unclosed_file};
use crate::turn::{next_place, raise_turn};
use qfs_base::image::MetaImage;
use qfs_base::numbers::{ActorId, FileId, Place};
use qfs_base::path::Path;
use qfs_base::reply::MetaReply;
use qfs_stripe::{Layout, LayoutCalls};
use std::alloc::{AllocError, Global};

/// Makes a file that its actor has yet to write. On want of memory the state stays.
pub fn create(
    image: &mut MetaImage,
    actor: ActorId,
    path: &Path,
    command: u16,
    len: u32,
) -> Result<MetaReply, AllocError>
    requires { IsKept image.old }
    ensures ok { IfOk result (λ reply. Serves image.old (decide_create actor path.now command len image.old) image.new reply) }
    ensures err { OnErr result (image.new ≡ image.old) }
    ensures kept { IsKept image.new }
    ensures loads { loads_of image.new.servers image.new.slots ≡ loads_of image.old.servers image.old.slots }
{
    let place = next_place(image);
    if let Some(refusal) = add_refusal(image.tree.as_slice(), path) {
        return Ok(MetaReply::Refused { refusal, place });
    }
    let file = image.next_file;
    if file == FileId::MAX || place == Place::MAX {
        return Ok(MetaReply::NoMemory);
    }
    add_file(image, path, actor, command, len)?;
    raise_turn(image);
    Ok(MetaReply::Created { file, place })
}

/// Closes a file once all of its slots are granted. On want of memory the state stays.
pub fn close(
    alloc: Global,
    layout: &Layout,
    image: &mut MetaImage,
    loads: &mut [usize],
    actor: ActorId,
    file: FileId,
) -> Result<MetaReply, AllocError>
    requires kept { IsKept image.old }
    requires loads { loads.old ≡ loads_of image.old.servers image.old.slots }
    ensures ok { IfOk result (λ reply. Serves image.old (decide_close layout.now actor file image.old) image.new reply) }
    ensures err { OnErr result (image.new ≡ image.old) }
    ensures kept { IsKept image.new }
    ensures loads { loads.new ≡ loads_of image.new.servers image.new.slots }
{
    let Some(row) = unclosed_file(image.tree.as_slice(), actor, file) else {
        return Ok(MetaReply::Gone);
    };
    let command = row.command;
    let count = layout.blocks_of(row.len);
    if let Some(id) = first_ungranted(image.slots.as_slice(), file, count) {
        return Ok(MetaReply::Incomplete {
            index: id.block.index,
            slot: id.slot,
        });
    }
    let place = next_place(image);
    if place == Place::MAX {
        return Ok(MetaReply::NoMemory);
    }
    close_file(alloc, image, loads, file, actor, command)?;
    raise_turn(image);
    Ok(MetaReply::Done { place })
}

/// Gives a file up that the actor hasn't closed yet. On want of memory the state stays.
pub fn abort(
    alloc: Global,
    image: &mut MetaImage,
    loads: &mut [usize],
    actor: ActorId,
    file: FileId,
) -> Result<MetaReply, AllocError>
    requires kept { IsKept image.old }
    requires loads { loads.old ≡ loads_of image.old.servers image.old.slots }
    ensures ok { IfOk result (λ reply. Serves image.old (decide_abort actor file image.old) image.new reply) }
    ensures err { OnErr result (image.new ≡ image.old) }
    ensures kept { IsKept image.new }
    ensures loads { loads.new ≡ loads_of image.new.servers image.new.slots }
{
    let Some(_row) = unclosed_file(image.tree.as_slice(), actor, file) else {
        return Ok(MetaReply::Gone);
    };
    let place = next_place(image);
    if place == Place::MAX {
        return Ok(MetaReply::NoMemory);
    }
    abort_file(alloc, image, loads, file)?;
    raise_turn(image);
    Ok(MetaReply::Done { place })
}
