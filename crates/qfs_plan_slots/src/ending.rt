//! The changes that end a recovery or move, and what decides on them: whose a pending grant is, and
//! whether a lease is live.
ghost use Rattle.std.specs.Prelude.{◌≡◌, ◌++◌, IfOk};
ghost use Rattle.qfs_model_meta.specs.Leases.{is_live_lease};
ghost use Rattle.qfs_model_meta.specs.SettleRequests.{is_own_grant, may_confirm, pending_version};
ghost use Rattle.qfs_model_meta.specs.Slots.{slot_at};
ghost use Rattle.qfs_model_meta.specs.TreeRows.{closed_file};
ghost use Rattle.qfs_plan_slots.specs.Ends.{grant_ends, lease_ends};

use qfs_base::image::Grant;
use qfs_base::numbers::{ActorId, LeaseId, Version};
use qfs_base::request::SlotId;
use qfs_lease::Leases;
use qfs_state::{Prepared, State};
use std::alloc::{AllocError, Global};

/// Whether a lease is live.
#[tactic(auto, using(crate::proofs::Found::some_holder), unfolding(qfs_model_meta::specs::Leases::is_live_lease))]
pub fn is_live(leases: &Leases, lease: LeaseId) -> bool
    ensures { result ≡ is_live_lease lease leases.now.leases }
{
    leases.look(lease).is_some()
}

/// Whether a pending grant is this actor's, with this version and lease.
#[tactic(auto, unfolding(qfs_model_meta::specs::SettleRequests::is_own_grant))]
pub fn is_own_grant(
    pending: Option<Grant>,
    actor: ActorId,
    version: Version,
    lease: LeaseId,
) -> bool
    ensures { result ≡ is_own_grant actor version lease pending }
{
    match pending {
        Some(grant) => {
            grant.actor == actor && grant.copy.version == version && grant.lease == lease
        }
        None => false,
    }
}

/// The version of a pending grant.
#[tactic(auto, unfolding(qfs_model_meta::specs::SettleRequests::pending_version))]
pub fn pending_version(pending: Option<Grant>) -> Option<Version>
    ensures { result ≡ pending_version pending }
{
    match pending {
        Some(grant) => Some(grant.copy.version),
        None => None,
    }
}

/// Whether a slot is one of a closed file and has this actor's grant pending.
#[tactic(auto, unfolding(qfs_model_meta::specs::SettleRequests::may_confirm))]
pub fn may_confirm(
    state: &State,
    actor: ActorId,
    id: SlotId,
    version: Version,
    lease: LeaseId,
) -> bool
    ensures { result ≡ may_confirm actor version lease
        (closed_file id.block.file state.now.image.tree)
        (slot_at state.now.image.slots id.block id.slot).grant }
{
    let pending = state.blocks().slot_at(id.block, id.slot).grant;
    let closed = state.names().closed_file(id.block.file).is_some();
    closed && is_own_grant(pending, actor, version, lease)
}

/// A lease ends, if it is to.
pub fn end_lease(alloc: Global, lease: LeaseId, ends: bool) -> Result<Vec<Prepared>, AllocError>
    ensures { IfOk result (λ changes. changes.items ≡ lease_ends lease ends) }
{
    let mut changes = Vec::new(alloc);
    if ends {
        changes.push(Prepared::EndLease { lease })?;
    }
    Ok(changes)
}

/// After these changes a grant is given up, if it is to be.
pub fn give_up(
    mut changes: Vec<Prepared>,
    id: SlotId,
    ends: bool,
) -> Result<Vec<Prepared>, AllocError>
    ensures { IfOk result (λ longer. longer.items ≡ changes.items ++ grant_ends id ends) }
{
    if ends {
        changes.push(Prepared::GiveUp { id })?;
    }
    Ok(changes)
}
