//! The grants of a put: a server for a slot of a file that its actor hasn't closed yet.
ghost use Rattle.std.specs.Prelude.{◌≡◌, ◌<◌, length, IfOk, IfErr};
ghost use Rattle.qfs_base.specs.Sizes.{SLOTS};
ghost use Rattle.qfs_model_meta.specs.Grammar.{IsServer};
ghost use Rattle.qfs_model_meta.specs.Lists.{block_count, new_grant, no_sources};
ghost use Rattle.qfs_model_meta.specs.PutRequests.{chosen_for_put, decide_grant, grant_for_put, put_granted, taken_refusal};
ghost use Rattle.qfs_model_meta.specs.Slots.{slot_at};
ghost use Rattle.qfs_plan_slots.specs.Ends.{grant_fails};
ghost use Rattle.qfs_plan_slots.specs.Steps.{grant_open};
ghost use Rattle.qfs_state.specs.Planning.{IsPlan, IsUnplanned};

use crate::barred::chosen_for_put;
use qfs_base::image::Grant;
use qfs_base::listing::Listing;
use qfs_base::lists::Nine;
use qfs_base::numbers::{ActorId, ServerId};
use qfs_base::reply::{Granted, MetaReply};
use qfs_base::request::SlotId;
use qfs_base::sizes::SLOTS;
use qfs_place::server_at;
use qfs_planning::plan_of;
use qfs_state::{Plan, Prepared, State, Unplanned};
use qfs_stripe::{Layout, LayoutCalls};
use std::alloc::{AllocError, Global};

/// No copy of any slot: a put reads none.
#[tactic(auto, unfolding(qfs_model_meta::specs::Lists::no_sources))]
fn no_sources(alloc: Global) -> Result<Nine, AllocError>
    ensures { IfOk result (λ nine. nine ≡ no_sources) }
{
    Listing::from_slice(alloc, &[None; SLOTS as usize])
}

/// What a put of a file of `len` bytes is told of the grant that it is about to get.
#[tactic(auto, unfolding(qfs_model_meta::specs::Lists::new_grant))]
fn told_of(
    alloc: Global,
    layout: &Layout,
    state: &State,
    len: u32,
    id: SlotId,
    server: ServerId,
) -> Result<Granted, AllocError>
    requires index { id.block.index < block_count layout.now len }
    ensures { IfOk result (λ told. told ≡ new_grant layout.now len id.block id.slot server 0
        no_sources state.now.image) }
{
    Ok(Granted {
        block: id.block,
        slot: id.slot,
        version: state.blocks().slot_at(id.block, id.slot).next,
        server,
        life: server_at(state.servers().as_slice(), server).life,
        lease: 0,
        sources: no_sources(alloc)?,
        rows: layout.rows_of(len, id.block.index),
    })
}

/// The grant of a slot that is pending, if one is, counts as failed.
fn fail_pending(
    alloc: Global,
    id: SlotId,
    pending: Option<Grant>,
) -> Result<Vec<Prepared>, AllocError>
    ensures { IfOk result (λ changes. changes.items ≡ grant_fails id pending) }
{
    let mut changes = Vec::new(alloc);
    if pending.is_some() {
        changes.push(Prepared::FailGrant { id })?;
    }
    Ok(changes)
}

/// Grants a slot on a server, after its pending grant, if it has one, counted as failed. No memory
/// is found where the server's load is full.
fn plan_on(
    alloc: Global,
    layout: &Layout,
    state: &State,
    actor: ActorId,
    len: u32,
    id: SlotId,
    server: ServerId,
) -> Result<Plan, AllocError>
    requires slot { id.slot < SLOTS }
    requires index { id.block.index < block_count layout.now len }
    requires server_there { IsServer (length state.now.image.servers) server }
    ensures { IfOk result (IsPlan state.now.image
        (grant_for_put layout.now actor len id.block id.slot state.now.image
        (slot_at state.now.image.slots id.block id.slot).grant server)) }
{
    let count = state.loads().on(server);
    if count == u32::MAX {
        return Err(AllocError);
    }
    let pending = state.blocks().slot_at(id.block, id.slot).grant;
    let told = told_of(alloc, layout, state, len, id, server)?;
    let failed = fail_pending(alloc, id, pending)?;
    let grant = Prepared::GrantSlot {
        id,
        server,
        actor,
        lease: 0,
    };
    plan_of(failed, grant, MetaReply::Granted(told))
}

/// Grants a slot of a file of `len` bytes on the server that is chosen (NoServer where there is
/// none).
fn plan_chosen(
    alloc: Global,
    layout: &Layout,
    state: &State,
    actor: ActorId,
    len: u32,
    id: SlotId,
) -> Result<Plan, Unplanned>
    requires slot { id.slot < SLOTS }
    requires index { id.block.index < block_count layout.now len }
    ensures ok { IfOk result (IsPlan state.now.image
        (grant_open layout.now actor len id state.now.image)) }
    ensures err { IfErr result (IsUnplanned
        (grant_open layout.now actor len id state.now.image)) }
{
    match chosen_for_put(state, id) {
        None => Err(Unplanned::Tells(MetaReply::NoServer {
            block: id.block,
            slot: id.slot,
        })),
        Some(server) => {
            let plan = plan_on(alloc, layout, state, actor, len, id, server)?;
            Ok(plan)
        }
    }
}

/// Why a slot isn't granted a second time: its grant is pending, and didn't fail.
#[tactic(auto, unfolding(qfs_model_meta::specs::PutRequests::taken_refusal))]
fn taken_refusal(again: bool, pending: Option<Grant>) -> Option<MetaReply>
    ensures { result ≡ taken_refusal again pending }
{
    match pending {
        Some(grant) if !again => Some(MetaReply::Taken {
            version: grant.copy.version,
        }),
        _ => None,
    }
}

/// Grants a server for a slot of a file that the actor hasn't closed yet (Gone where there is
/// none, NoBlock where it has no such block). `again` says that the server of the pending grant
/// failed the put: that grant is condemned, and its server barred (without `again` Taken, with the
/// version of the grant). NoServer where no server is open for the slot, and no memory where the
/// load of the chosen one is the last number of 32 bits.
pub fn plan_grant(
    alloc: Global,
    layout: &Layout,
    state: &State,
    actor: ActorId,
    id: SlotId,
    again: bool,
) -> Result<Plan, Unplanned>
    requires slot { id.slot < SLOTS }
    ensures ok { IfOk result (IsPlan state.now.image
        (decide_grant layout.now actor id.block id.slot again state.now.image)) }
    ensures err { IfErr result (IsUnplanned
        (decide_grant layout.now actor id.block id.slot again state.now.image)) }
{
    let Some(known) = state.names().unclosed_file(actor, id.block.file) else {
        return Err(Unplanned::Tells(MetaReply::Gone));
    };
    if id.block.index >= layout.blocks_of(known.len) {
        return Err(Unplanned::Tells(MetaReply::NoBlock));
    }
    let pending = state.blocks().slot_at(id.block, id.slot).grant;
    if let Some(refusal) = taken_refusal(again, pending) {
        return Err(Unplanned::Tells(refusal));
    }
    plan_chosen(alloc, layout, state, actor, known.len, id)
}
