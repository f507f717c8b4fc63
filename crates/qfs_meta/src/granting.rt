//! The grant of a slot for a put.
ghost use Rattle.std.specs.Prelude.{◌≡◌, ◌<◌, ◌≤◌, ◌^◌, length, IfOk, IfSome, OnOk, OnErr};
ghost use Rattle.qfs_model_meta.specs.Lists.{block_count, new_grant, no_sources};
ghost use Rattle.qfs_model_meta.specs.PutRequests.{decide_grant};
ghost use Rattle.qfs_model_meta.specs.Slots.{slot_at};
ghost use Rattle.qfs_meta.specs.Granting.{granted_anew, granting, grant_chosen};
ghost use Rattle.qfs_meta.specs.Kept.{IsKept, IsGrantPossible, IsServerNumber};
ghost use Rattle.qfs_meta.specs.Loads.{loads_of};
ghost use Rattle.qfs_meta.specs.Serving.{Serves};

use crate::census::{chosen_for_put, failed_with};
use crate::condemning::condemn;
use crate::listed::no_sources;
use crate::loads::{place_slot, replace_slot};
use crate::names::unclosed_file;
use crate::servers::server_at;
use crate::slots::slot_at;
use crate::turn::raise_turn;
use qfs_base::chunk::Copy;
use qfs_base::image::{Grant, MetaImage, SlotRecord, SlotRow};
use qfs_base::numbers::{ActorId, Life, ServerId};
use qfs_base::reply::{Granted, MetaReply};
use qfs_base::request::SlotId;
use qfs_stripe::{Layout, LayoutCalls};
use std::alloc::{AllocError, Global};

/// A slot with a new grant for a put: its version is the next one. The server of a pending grant
/// counts as failed.
#[tactic(auto, unfolding(qfs_model_meta::specs::Slots::granted_slot, qfs_model_meta::specs::Slots::failed_slot, qfs_model_meta::specs::Slots::ungranted_slot, qfs_model_meta::specs::PutRequests::failed_with))]
fn granted(state: &SlotRecord, server: ServerId, life: Life, actor: ActorId) -> SlotRecord
    requires { IsGrantPossible state.now }
    ensures { result ≡ granted_anew server life actor state.now }
{
    let version = state.next;
    let copy = Copy {
        server,
        life,
        version,
    };
    SlotRecord {
        next: version.saturating_add(1),
        current: state.current,
        grant: Some(Grant {
            copy,
            actor,
            lease: 0,
        }),
        failed: failed_with(state),
    }
}

/// Gives a slot a grant on a server, in the life that is known of it, and condemns a pending one.
/// On want of memory, and where a condemned number would be the last one of 64 bits, the state
/// stays.
fn give_grant(
    alloc: Global,
    image: &mut MetaImage,
    loads: &mut [usize],
    id: SlotId,
    state: &SlotRecord,
    server: ServerId,
    actor: ActorId,
) -> Result<(), AllocError>
    requires kept { IsKept image.old }
    requires loads { loads.old ≡ loads_of image.old.servers image.old.slots }
    requires state { state.now ≡ slot_at image.old.slots id.block id.slot }
    ensures ok { OnOk result (image.new ≡ granting id server actor image.old) }
    ensures fits { OnOk result (image.new.next_condemned < 2 ^ 64) }
    ensures err { OnErr result (image.new ≡ image.old) }
    ensures loads { loads.new ≡ loads_of image.new.servers image.new.slots }
{
    let life = server_at(image.servers.as_slice(), server).life;
    let row = SlotRow {
        block: id.block,
        slot: id.slot,
        state: granted(state, server, life, actor),
    };
    let Some(pending) = state.grant else {
        return place_slot(image.servers.as_slice(), &mut image.slots, loads, row);
    };
    condemn(alloc, image, id, pending.copy)?;
    replace_slot(image.servers.as_slice(), &mut image.slots, loads, row);
    Ok(())
}

/// What a put of a file of `len` bytes is told of the grant that it is about to get.
#[tactic(auto, unfolding(qfs_model_meta::specs::Lists::new_grant))]
fn told_of(
    alloc: Global,
    layout: &Layout,
    len: u32,
    id: SlotId,
    image: &MetaImage,
    server: ServerId,
) -> Result<Granted, AllocError>
    requires kept { IsKept image.now }
    requires index { id.block.index < block_count layout.now len }
    ensures { IfOk result (λ told. told ≡ new_grant layout.now len id.block id.slot server 0 no_sources image.now) }
{
    let record = slot_at(image.slots.as_slice(), id.block, id.slot);
    Ok(Granted {
        block: id.block,
        slot: id.slot,
        version: record.next,
        server,
        life: server_at(image.servers.as_slice(), server).life,
        lease: 0,
        sources: no_sources(alloc)?,
        rows: layout.rows_of(len, id.block.index),
    })
}

/// Grants a slot on the server that is chosen, if there is one. A pending grant is condemned, and
/// its server counts as failed. On want of memory the state stays.
fn grant_open(
    alloc: Global,
    layout: &Layout,
    image: &mut MetaImage,
    loads: &mut [usize],
    actor: ActorId,
    len: u32,
    id: SlotId,
) -> Result<MetaReply, AllocError>
    requires kept { IsKept image.old }
    requires loads { loads.old ≡ loads_of image.old.servers image.old.slots }
    requires index { id.block.index < block_count layout.now len }
    ensures ok { IfOk result (λ reply. Serves image.old (grant_chosen layout.now actor len id image.old) image.new reply) }
    ensures err { OnErr result (image.new ≡ image.old) }
    ensures kept { IsKept image.new }
    ensures loads { loads.new ≡ loads_of image.new.servers image.new.slots }
{
    let servers = image.servers.as_slice();
    let slots = image.slots.as_slice();
    let state = slot_at(slots, id.block, id.slot);
    let Some(server) = chosen_for_put(servers, slots, loads, id, &state) else {
        return Ok(MetaReply::NoServer {
            block: id.block,
            slot: id.slot,
        });
    };
    let told = told_of(alloc, layout, len, id, image, server)?;
    give_grant(alloc, image, loads, id, &state, server, actor)?;
    raise_turn(image);
    Ok(MetaReply::Granted(told))
}

/// Grants a server for a slot of a file that the actor hasn't closed yet. `again` says that the
/// server of the pending grant failed the put. On want of memory the state stays.
pub fn grant(
    alloc: Global,
    layout: &Layout,
    image: &mut MetaImage,
    loads: &mut [usize],
    actor: ActorId,
    id: SlotId,
    again: bool,
) -> Result<MetaReply, AllocError>
    requires kept { IsKept image.old }
    requires loads { loads.old ≡ loads_of image.old.servers image.old.slots }
    ensures ok { IfOk result (λ reply. Serves image.old (decide_grant layout.now actor id.block id.slot again image.old) image.new reply) }
    ensures err { OnErr result (image.new ≡ image.old) }
    ensures kept { IsKept image.new }
    ensures loads { loads.new ≡ loads_of image.new.servers image.new.slots }
{
    let Some(row) = unclosed_file(image.tree.as_slice(), actor, id.block.file) else {
        return Ok(MetaReply::Gone);
    };
    let len = row.len;
    if id.block.index >= layout.blocks_of(len) {
        return Ok(MetaReply::NoBlock);
    }
    match slot_at(image.slots.as_slice(), id.block, id.slot).grant {
        Some(pending) if !again => Ok(MetaReply::Taken {
            version: pending.copy.version,
        }),
        _ => grant_open(alloc, layout, image, loads, actor, len, id),
    }
}
