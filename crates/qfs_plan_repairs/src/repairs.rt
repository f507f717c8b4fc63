//! The request that recovers a missing slot.
ghost use Rattle.std.specs.Prelude.{◌≡◌, ◌<◌, IfOk, IfErr, None};
ghost use Rattle.qfs_base.specs.Sizes.{SLOTS};
ghost use Rattle.qfs_model_meta.specs.RepairRequests.{decide_recover, is_missing};
ghost use Rattle.qfs_model_meta.specs.Slots.{slot_at};
ghost use Rattle.qfs_plan_repairs.specs.Steps.{recover_in_file, recover_missing, recover_slot};
ghost use Rattle.qfs_state.specs.Planning.{IsPlan, IsUnplanned};

use crate::granting::plan_recovery;
use qfs_base::chunk::{BlockId, Copy};
use qfs_base::numbers::{ActorId, Slot};
use qfs_base::path::Path;
use qfs_base::reply::MetaReply;
use qfs_base::request::SlotId;
use qfs_place::{is_live, server_at};
use qfs_state::{Plan, State, Unplanned};
use qfs_stripe::{Layout, LayoutCalls};
use std::alloc::Global;

/// Whether a slot is missing: it has no live current copy, or that copy's server isn't up and
/// doesn't hibernate.
#[tactic(auto, unfolding(qfs_model_meta::specs::RepairRequests::is_missing, qfs_model_meta::specs::RepairRequests::is_expected, qfs_model_meta::specs::Servers::hibernates))]
fn is_missing(state: &State, current: Option<Copy>) -> bool
    ensures { result ≡ is_missing state.now.image.clock state.now.image.servers current }
{
    let servers = state.servers().as_slice();
    match current {
        Some(copy) => {
            let server = server_at(servers, copy.server);
            !(is_live(servers, copy) && (server.up || state.clock() < server.until))
        }
        None => true,
    }
}

/// Recovers a slot without a pending grant, if it is missing (Whole where it isn't).
fn plan_missing(
    alloc: Global,
    layout: &Layout,
    term: u32,
    actor: ActorId,
    state: &State,
    id: SlotId,
) -> Result<Plan, Unplanned>
    requires slot_number { id.slot < SLOTS }
    requires free { (slot_at state.now.image.slots id.block id.slot).grant ≡ None }
    ensures ok { IfOk result (IsPlan state.now.image
        (recover_missing layout.now term actor id state.now.image)) }
    ensures err { IfErr result (IsUnplanned
        (recover_missing layout.now term actor id state.now.image)) }
{
    let record = state.blocks().slot_at(id.block, id.slot);
    if !is_missing(state, record.current) {
        return Err(Unplanned::Tells(MetaReply::Whole));
    }
    plan_recovery(alloc, layout, term, actor, state, id)
}

/// Recovers a slot, if no grant of it is pending (Taken where one is).
fn plan_slot(
    alloc: Global,
    layout: &Layout,
    term: u32,
    actor: ActorId,
    state: &State,
    id: SlotId,
) -> Result<Plan, Unplanned>
    requires { id.slot < SLOTS }
    ensures ok { IfOk result (IsPlan state.now.image
        (recover_slot layout.now term actor id state.now.image)) }
    ensures err { IfErr result (IsUnplanned
        (recover_slot layout.now term actor id state.now.image)) }
{
    match state.blocks().slot_at(id.block, id.slot).grant {
        Some(grant) => Err(Unplanned::Tells(MetaReply::Taken {
            version: grant.copy.version,
        })),
        None => plan_missing(alloc, layout, term, actor, state, id),
    }
}

/// Recovers a slot of the file at a path, if the file has such a block (NoBlock where it hasn't).
fn plan_in_file(
    alloc: Global,
    layout: &Layout,
    term: u32,
    actor: ActorId,
    state: &State,
    path: &Path,
    index: u32,
    slot: Slot,
) -> Result<Plan, Unplanned>
    requires { slot < SLOTS }
    ensures ok { IfOk result (IsPlan state.now.image
        (recover_in_file layout.now term actor path.now index slot state.now.image)) }
    ensures err { IfErr result (IsUnplanned
        (recover_in_file layout.now term actor path.now index slot state.now.image)) }
{
    let known = state.names().file_at(path);
    if index >= layout.blocks_of(known.len) {
        return Err(Unplanned::Tells(MetaReply::NoBlock));
    }
    let file = known.file;
    let block = BlockId { file, index };
    plan_slot(alloc, layout, term, actor, state, SlotId { block, slot })
}

/// Grants the recovery of a missing slot of the closed file at a path, on the server that is
/// chosen, under a lease for a term, in ticks (for good where it is 0). It is refused as the name
/// tree refuses the path (BadPath), where the file has no such block (NoBlock), where a grant of
/// the slot is pending (Taken), where the slot isn't missing (Whole), and where no server may get
/// the copy (NoServer), in this order.
pub fn plan_recover(
    alloc: Global,
    layout: &Layout,
    term: u32,
    actor: ActorId,
    state: &State,
    path: &Path,
    index: u32,
    slot: Slot,
) -> Result<Plan, Unplanned>
    requires { slot < SLOTS }
    ensures ok { IfOk result (IsPlan state.now.image
        (decide_recover layout.now term actor path.now index slot state.now.image)) }
    ensures err { IfErr result (IsUnplanned
        (decide_recover layout.now term actor path.now index slot state.now.image)) }
{
    match state.names().look_refusal(path) {
        Some(refusal) => Err(Unplanned::Tells(MetaReply::BadPath(refusal))),
        None => plan_in_file(alloc, layout, term, actor, state, path, index, slot),
    }
}
