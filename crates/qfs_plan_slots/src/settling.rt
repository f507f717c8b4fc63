//! The requests that end a recovery or move: its grant becomes current, or is given up.
ghost use Rattle.std.specs.Prelude.{◌≡◌, false, IfOk, IfErr};
ghost use Rattle.qfs_model_meta.specs.SettleRequests.{confirm_grant, decide_abandon, decide_confirm};
ghost use Rattle.qfs_state.specs.Planning.{IsPlan, IsUnplanned};

use crate::ending::{end_lease, give_up, is_live, is_own_grant, may_confirm, pending_version};
use qfs_base::numbers::{ActorId, LeaseId, Version};
use qfs_base::reply::MetaReply;
use qfs_base::request::SlotId;
use qfs_planning::{place_of, plan_of};
use qfs_state::{Plan, Prepared, State, Unplanned};
use std::alloc::{AllocError, Global};

/// Gives a recovery or move up: the actor's own lease ends, and the pending grant of the slot is
/// given up where it is still this actor's, with this version and lease. It is never refused.
pub fn plan_abandon(
    alloc: Global,
    state: &State,
    actor: ActorId,
    id: SlotId,
    version: Version,
    lease: LeaseId,
) -> Result<Plan, Unplanned>
    ensures ok { IfOk result (IsPlan state.now.image
        (decide_abandon actor id.block id.slot version lease state.now.image)) }
    ensures err { IfErr result (IsUnplanned
        (decide_abandon actor id.block id.slot version lease state.now.image)) }
{
    let place = place_of(state)?;
    let holds = state.leases().holds(actor, lease);
    let ended = end_lease(alloc, lease, holds)?;
    let pending = state.blocks().slot_at(id.block, id.slot).grant;
    let own = is_own_grant(pending, actor, version, lease);
    let changes = give_up(ended, id, own)?;
    Ok(Plan {
        changes,
        reply: MetaReply::Done { place },
    })
}

/// What ends of a recovery or move whose file stands no more: the actor's own lease.
fn plan_vanished(
    alloc: Global,
    state: &State,
    actor: ActorId,
    id: SlotId,
    version: Version,
    lease: LeaseId,
) -> Result<Plan, AllocError>
    ensures { IfOk result (IsPlan state.now.image
        (confirm_grant actor id.block id.slot version lease state.now.image false)) }
{
    let holds = state.leases().holds(actor, lease);
    let changes = end_lease(alloc, lease, holds)?;
    Ok(Plan {
        changes,
        reply: MetaReply::Vanished,
    })
}

/// Makes the granted copy of a recovery or move current: its lease ends, if it is still live, and
/// the copy before it is condemned. Where the file stands no more only the actor's lease ends
/// (Vanished). Stale, with the version of the pending grant, where the file isn't closed or the
/// grant isn't this actor's with this version and lease.
pub fn plan_confirm(
    alloc: Global,
    state: &State,
    actor: ActorId,
    id: SlotId,
    version: Version,
    lease: LeaseId,
) -> Result<Plan, Unplanned>
    ensures ok { IfOk result (IsPlan state.now.image
        (decide_confirm actor id.block id.slot version lease state.now.image)) }
    ensures err { IfErr result (IsUnplanned
        (decide_confirm actor id.block id.slot version lease state.now.image)) }
{
    if !state.names().file_stands(id.block.file) {
        let plan = plan_vanished(alloc, state, actor, id, version, lease)?;
        return Ok(plan);
    }
    if !may_confirm(state, actor, id, version, lease) {
        let pending = state.blocks().slot_at(id.block, id.slot).grant;
        return Err(Unplanned::Tells(MetaReply::Stale {
            held: pending_version(pending),
            given: version,
        }));
    }
    let live = is_live(state.leases(), lease);
    let ended = end_lease(alloc, lease, live)?;
    let plan = plan_of(ended, Prepared::ConfirmSlot { id }, MetaReply::Confirmed)?;
    Ok(plan)
}
