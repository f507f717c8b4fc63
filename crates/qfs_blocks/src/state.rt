//! The record of a slot: which copy is current, which grant is pending, and what was tried.
ghost use Rattle.std.specs.Prelude.{◌≡◌, ◌≤◌};
ghost use Rattle.qfs_model_meta.specs.Apply.{is_that_copy};
ghost use Rattle.qfs_model_meta.specs.Slots.{never_granted, granted_slot, ungranted_slot, failed_slot, confirmed_slot, sealed_slot, emptied_slot};

use qfs_base::chunk::Copy as ChunkCopy;
use qfs_base::image::{Grant, SlotRecord};
use qfs_base::numbers::{ActorId, LeaseId, Life, ServerId};
use qfs_base::server_set::ServerSet;
use qfs_place::granted_copy;

/// Whether a copy is one of these.
#[tactic(auto, unfolding(qfs_model_meta::specs::Apply::is_that_copy, qfs_model_meta::specs::Slots::same_copy))]
pub fn is_that_copy(copy: ChunkCopy, other: Option<ChunkCopy>) -> bool
    ensures { result ≡ is_that_copy copy other }
{
    match other {
        Some(other) => {
            other.server == copy.server && other.life == copy.life && other.version == copy.version
        }
        None => false,
    }
}

/// A slot that was never granted: versions start at 1.
#[tactic(auto, unfolding(qfs_model_meta::specs::Slots::never_granted))]
pub fn never_granted() -> SlotRecord
    ensures { result ≡ never_granted }
{
    SlotRecord {
        next: 1,
        current: None,
        grant: None,
        failed: ServerSet::none(),
    }
}

/// A new grant: to whom, on which server in which life, and under which lease (0 for a put).
#[derive(Clone, Copy)]
pub struct NewGrant {
    pub server: ServerId,
    pub life: Life,
    pub actor: ActorId,
    pub lease: LeaseId,
}

/// A slot with a new grant, which gets the next version.
#[tactic(auto, unfolding(qfs_model_meta::specs::Slots::granted_slot))]
pub fn granted(state: &SlotRecord, new: NewGrant) -> SlotRecord
    ensures { result ≡ granted_slot new.server new.life new.actor new.lease state.now }
{
    let version = state.next;
    let copy = ChunkCopy {
        server: new.server,
        life: new.life,
        version,
    };
    SlotRecord {
        next: version.saturating_add(1),
        current: state.current,
        grant: Some(Grant {
            copy,
            actor: new.actor,
            lease: new.lease,
        }),
        failed: state.failed,
    }
}

/// A slot whose pending grant is gone.
#[tactic(auto, unfolding(qfs_model_meta::specs::Slots::ungranted_slot))]
pub fn ungranted(state: &SlotRecord) -> SlotRecord
    ensures { result ≡ ungranted_slot state.now }
{
    SlotRecord {
        next: state.next,
        current: state.current,
        grant: None,
        failed: state.failed,
    }
}

/// A slot one of whose servers failed a put.
#[tactic(auto, unfolding(qfs_model_meta::specs::Slots::failed_slot))]
pub fn failed(state: &SlotRecord, server: ServerId) -> SlotRecord
    requires low { 1 ≤ server }
    requires high { server ≤ 64 }
    ensures { result ≡ failed_slot server state.now }
{
    let mut failed = state.failed;
    failed.insert(server);
    SlotRecord {
        next: state.next,
        current: state.current,
        grant: state.grant,
        failed,
    }
}

/// A slot whose pending grant became current.
#[tactic(auto, unfolding(qfs_model_meta::specs::Slots::confirmed_slot))]
pub fn confirmed(state: &SlotRecord) -> SlotRecord
    ensures { result ≡ confirmed_slot state.now }
{
    SlotRecord {
        next: state.next,
        current: granted_copy(state.grant),
        grant: None,
        failed: state.failed,
    }
}

/// A slot of a file that was closed: its grant is current, and no server counts as failed any
/// more.
#[tactic(auto, unfolding(qfs_model_meta::specs::Slots::sealed_slot))]
pub fn sealed(state: &SlotRecord) -> SlotRecord
    ensures { result ≡ sealed_slot state.now }
{
    SlotRecord {
        next: state.next,
        current: granted_copy(state.grant),
        grant: None,
        failed: ServerSet::none(),
    }
}

/// A slot that has no copies any more.
#[tactic(auto, unfolding(qfs_model_meta::specs::Slots::emptied_slot))]
pub fn emptied(state: &SlotRecord) -> SlotRecord
    ensures { result ≡ emptied_slot state.now }
{
    SlotRecord {
        next: state.next,
        current: None,
        grant: None,
        failed: state.failed,
    }
}
