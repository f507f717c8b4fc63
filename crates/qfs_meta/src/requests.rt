//! The requests that are served, each by what it asks.
ghost use Rattle.std.specs.Prelude.{◌≡◌, true, IfOk, OnErr};
ghost use Rattle.qfs_meta.specs.Kept.{IsKept};
ghost use Rattle.qfs_meta.specs.Loads.{loads_of};
ghost use Rattle.qfs_meta.specs.Metaserver.{is_built};
ghost use Rattle.qfs_meta.specs.Serving.{ServesBy};

use crate::gets::{open, release};
use crate::granting::grant;
use crate::puts::{abort, close, create};
use qfs_base::chunk::BlockId;
use qfs_base::image::MetaImage;
use qfs_base::numbers::ActorId;
use qfs_base::reply::MetaReply;
use qfs_base::request::{MetaRequest, SlotId};
use qfs_base::sizes::{MOST_FILE_BYTES, SLOTS};
use qfs_stripe::Layout;
use std::alloc::{AllocError, Global};

/// Whether a request is one of those that are served.
pub fn is_built(request: &MetaRequest) -> bool
    ensures { result ≡ is_built request.now }
{
    match request {
        MetaRequest::Create { .. }
        | MetaRequest::Grant { .. }
        | MetaRequest::Close { .. }
        | MetaRequest::Abort { .. }
        | MetaRequest::OpenFile { .. }
        | MetaRequest::Release { .. } => true,
        _ => false,
    }
}

/// Serves a request of an actor that wasn't dropped. Leases live for `term` ticks, or until they
/// are given back where that is 0. On want of memory the state stays.
pub fn serve_request(
    alloc: Global,
    layout: &Layout,
    term: u32,
    image: &mut MetaImage,
    loads: &mut [usize],
    actor: ActorId,
    request: &MetaRequest,
) -> Result<MetaReply, AllocError>
    requires kept { IsKept image.old }
    requires loads { loads.old ≡ loads_of image.old.servers image.old.slots }
    requires built { is_built request.now ≡ true }
    ensures ok { IfOk result (ServesBy layout.now term actor image.old request.now image.new) }
    ensures err { OnErr result (image.new ≡ image.old) }
    ensures kept { IsKept image.new }
    ensures loads { loads.new ≡ loads_of image.new.servers image.new.slots }
{
    match request {
        MetaRequest::Create { path, command, len } => {
            if *len > MOST_FILE_BYTES {
                return Ok(MetaReply::Nothing);
            }
            create(image, actor, path, *command, *len)
        }
        MetaRequest::Grant {
            file,
            index,
            slot,
            again,
        } => {
            if *slot >= SLOTS {
                return Ok(MetaReply::Nothing);
            }
            let block = BlockId {
                file: *file,
                index: *index,
            };
            let id = SlotId { block, slot: *slot };
            grant(alloc, layout, image, loads, actor, id, *again)
        }
        MetaRequest::Close { file } => close(alloc, layout, image, loads, actor, *file),
        MetaRequest::Abort { file } => abort(alloc, image, loads, actor, *file),
        MetaRequest::OpenFile { path } => open(alloc, layout, term, image, actor, path),
        MetaRequest::Release { lease } => Ok(release(alloc, image, actor, *lease)),
        _ => unreachable!("only requests that are served come here"),
    }
}
