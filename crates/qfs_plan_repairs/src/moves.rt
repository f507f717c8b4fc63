//! The request that moves a slot's copy to a given server.
ghost use Rattle.std.specs.Prelude.{◌≡◌, ◌<◌, length, IfOk, IfErr, None};
ghost use Rattle.qfs_base.specs.Sizes.{SLOTS};
ghost use Rattle.qfs_model_meta.specs.Grammar.{IsServer};
ghost use Rattle.qfs_model_meta.specs.MoveRequests.{decide_move, move_copy};
ghost use Rattle.qfs_model_meta.specs.Servers.{is_listed};
ghost use Rattle.qfs_model_meta.specs.Slots.{slot_at};
ghost use Rattle.qfs_plan_repairs.specs.MoveSteps.{move_current, move_free, move_in_file, move_listed};
ghost use Rattle.qfs_state.specs.Planning.{IsPlan, IsUnplanned};

use crate::barred::may_get;
use crate::granting::plan_leased;
use crate::sources::one_source;
use qfs_base::chunk::{BlockId, Copy};
use qfs_base::numbers::{ActorId, ServerId, Slot};
use qfs_base::path::Path;
use qfs_base::reply::MetaReply;
use qfs_base::request::SlotId;
use qfs_place::is_listed;
use qfs_state::{Plan, State, Unplanned};
use qfs_stripe::{Layout, LayoutCalls};
use std::alloc::Global;

/// Whether a move can read a copy: it is live, and its server is up.
fn can_read(state: &State, copy: Copy) -> bool
    ensures { result ≡ is_listed state.now.image.servers copy }
{
    is_listed(state.servers().as_slice(), copy)
}

/// Moves a listed copy, if the new server may get it (Barred where it may not).
fn plan_listed(
    alloc: Global,
    layout: &Layout,
    term: u32,
    actor: ActorId,
    state: &State,
    id: SlotId,
    to: ServerId,
    copy: Copy,
) -> Result<Plan, Unplanned>
    requires slot_number { id.slot < SLOTS }
    requires server_there { IsServer (length state.now.image.servers) to }
    requires free { (slot_at state.now.image.slots id.block id.slot).grant ≡ None }
    ensures ok { IfOk result (IsPlan state.now.image
        (move_listed layout.now term actor id to state.now.image copy)) }
    ensures err { IfErr result (IsUnplanned
        (move_listed layout.now term actor id to state.now.image copy)) }
{
    if !may_get(state, id.block, to) {
        return Err(Unplanned::Tells(MetaReply::Barred { server: to }));
    }
    let sources = one_source(alloc, id.slot, copy)?;
    let plan = plan_leased(alloc, layout, term, actor, state, id, to, sources)?;
    Ok(plan)
}

/// Moves the current copy of a slot without a pending grant, if the copy is live and its server is
/// up (Away where it isn't).
fn plan_free(
    alloc: Global,
    layout: &Layout,
    term: u32,
    actor: ActorId,
    state: &State,
    id: SlotId,
    to: ServerId,
    copy: Copy,
) -> Result<Plan, Unplanned>
    requires slot_number { id.slot < SLOTS }
    requires server_there { IsServer (length state.now.image.servers) to }
    requires free { (slot_at state.now.image.slots id.block id.slot).grant ≡ None }
    ensures ok { IfOk result (IsPlan state.now.image
        (move_free layout.now term actor id to state.now.image copy)) }
    ensures err { IfErr result (IsUnplanned
        (move_free layout.now term actor id to state.now.image copy)) }
{
    if !can_read(state, copy) {
        return Err(Unplanned::Tells(MetaReply::Away {
            server: copy.server,
        }));
    }
    plan_listed(alloc, layout, term, actor, state, id, to, copy)
}

/// Moves the current copy of a slot, if no grant of the slot is pending (Taken where one is).
fn plan_copy(
    alloc: Global,
    layout: &Layout,
    term: u32,
    actor: ActorId,
    state: &State,
    id: SlotId,
    to: ServerId,
    copy: Copy,
) -> Result<Plan, Unplanned>
    requires slot_number { id.slot < SLOTS }
    requires server_there { IsServer (length state.now.image.servers) to }
    ensures ok { IfOk result (IsPlan state.now.image
        (move_copy layout.now term actor id.block id.slot to state.now.image
        (slot_at state.now.image.slots id.block id.slot).grant copy)) }
    ensures err { IfErr result (IsUnplanned
        (move_copy layout.now term actor id.block id.slot to state.now.image
        (slot_at state.now.image.slots id.block id.slot).grant copy)) }
{
    match state.blocks().slot_at(id.block, id.slot).grant {
        Some(grant) => Err(Unplanned::Tells(MetaReply::Taken {
            version: grant.copy.version,
        })),
        None => plan_free(alloc, layout, term, actor, state, id, to, copy),
    }
}

/// Moves the current copy of a slot, if it has one (NoBlock where it has none).
fn plan_slot(
    alloc: Global,
    layout: &Layout,
    term: u32,
    actor: ActorId,
    state: &State,
    id: SlotId,
    to: ServerId,
) -> Result<Plan, Unplanned>
    requires slot_number { id.slot < SLOTS }
    requires server_there { IsServer (length state.now.image.servers) to }
    ensures ok { IfOk result (IsPlan state.now.image
        (move_current layout.now term actor id to state.now.image)) }
    ensures err { IfErr result (IsUnplanned
        (move_current layout.now term actor id to state.now.image)) }
{
    match state.blocks().slot_at(id.block, id.slot).current {
        None => Err(Unplanned::Tells(MetaReply::NoBlock)),
        Some(copy) => plan_copy(alloc, layout, term, actor, state, id, to, copy),
    }
}

/// Moves the copy of a slot of the file at a path, if the file has such a block (NoBlock where it
/// hasn't).
fn plan_in_file(
    alloc: Global,
    layout: &Layout,
    term: u32,
    actor: ActorId,
    state: &State,
    path: &Path,
    index: u32,
    slot: Slot,
    to: ServerId,
) -> Result<Plan, Unplanned>
    requires slot_number { slot < SLOTS }
    requires server_there { IsServer (length state.now.image.servers) to }
    ensures ok { IfOk result (IsPlan state.now.image
        (move_in_file layout.now term actor path.now index slot to state.now.image)) }
    ensures err { IfErr result (IsUnplanned
        (move_in_file layout.now term actor path.now index slot to state.now.image)) }
{
    let known = state.names().file_at(path);
    if index >= layout.blocks_of(known.len) {
        return Err(Unplanned::Tells(MetaReply::NoBlock));
    }
    let file = known.file;
    let block = BlockId { file, index };
    plan_slot(
        alloc,
        layout,
        term,
        actor,
        state,
        SlotId { block, slot },
        to,
    )
}

/// Grants the move of the current copy of a slot of the closed file at a path to a given server,
/// under a lease for a term, in ticks (for good where it is 0). It is refused as the name tree
/// refuses the path (BadPath), where the file has no such block or the slot no current copy
/// (NoBlock), where a grant of the slot is pending (Taken), where the copy isn't live or its server
/// isn't up (Away), and where the new server may not get a copy of the block (Barred), in this
/// order.
pub fn plan_move(
    alloc: Global,
    layout: &Layout,
    term: u32,
    actor: ActorId,
    state: &State,
    path: &Path,
    index: u32,
    slot: Slot,
    to: ServerId,
) -> Result<Plan, Unplanned>
    requires slot { slot < SLOTS }
    requires there { IsServer (length state.now.image.servers) to }
    ensures ok { IfOk result (IsPlan state.now.image
        (decide_move layout.now term actor path.now index slot to state.now.image)) }
    ensures err { IfErr result (IsUnplanned
        (decide_move layout.now term actor path.now index slot to state.now.image)) }
{
    match state.names().look_refusal(path) {
        Some(refusal) => Err(Unplanned::Tells(MetaReply::BadPath(refusal))),
        None => plan_in_file(alloc, layout, term, actor, state, path, index, slot, to),
    }
}
