//! The requests of a get: a file is opened under a lease, which ends at its release.
ghost use Rattle.std.specs.Prelude.{◌≡◌, IfOk, IfErr};
ghost use Rattle.qfs_model_meta.specs.GetRequests.{decide_open, decide_release};
ghost use Rattle.qfs_model_meta.specs.Leases.{lease_end};
ghost use Rattle.qfs_model_meta.specs.Servers.{reading_after};
ghost use Rattle.qfs_state.specs.Planning.{IsPlan, IsUnplanned};

use crate::listed::listed_blocks;
use qfs_base::numbers::{ActorId, LeaseId};
use qfs_base::path::Path;
use qfs_base::reply::{MetaReply, Opened};
use qfs_lease::LeaseView;
use qfs_planning::{one_change, place_of, refused};
use qfs_state::{Plan, Prepared, State, Unplanned};
use qfs_stripe::{Layout, LayoutCalls};
use std::alloc::Global;

/// The reading until which a lease lives that is given now: for good where the term is 0.
#[tactic(auto, unfolding(qfs_model_meta::specs::Leases::lease_end, qfs_model_meta::specs::Servers::reading_after))]
fn lease_end(term: u32, clock: u64) -> u64
    ensures { result ≡ lease_end term clock }
{
    if term == 0 {
        0
    } else {
        clock.saturating_add(term as u64)
    }
}

/// Opens a closed file under a lease for a term, in ticks (for good where it is 0), and tells its
/// length and the listed copies of its blocks. It is refused as the name tree refuses the path.
pub fn plan_open(
    alloc: Global,
    layout: &Layout,
    term: u32,
    state: &State,
    actor: ActorId,
    path: &Path,
) -> Result<Plan, Unplanned>
    ensures ok { IfOk result (IsPlan state.now.image
        (decide_open layout.now term actor path.now state.now.image)) }
    ensures err { IfErr result (IsUnplanned
        (decide_open layout.now term actor path.now state.now.image)) }
{
    let place = place_of(state)?;
    if let Some(refusal) = state.names().look_refusal(path) {
        return Err(refused(refusal, place));
    }
    let known = state.names().file_at(path);
    let count = layout.blocks_of(known.len);
    let blocks = listed_blocks(alloc, state, known.file, count)?;
    let lease = state.leases().next();
    let opened = Opened {
        lease,
        place,
        file: known.file,
        len: known.len,
        blocks,
    };
    let until = lease_end(term, state.clock());
    let change = Prepared::GiveLease {
        actor,
        file: known.file,
        until,
    };
    let plan = one_change(alloc, change, MetaReply::Opened(opened))?;
    Ok(plan)
}

/// Ends a lease of the actor (Gone where it has none of this number).
pub fn plan_release(
    alloc: Global,
    state: &State,
    actor: ActorId,
    lease: LeaseId,
) -> Result<Plan, Unplanned>
    ensures ok { IfOk result (IsPlan state.now.image
        (decide_release actor lease state.now.image)) }
    ensures err { IfErr result (IsUnplanned (decide_release actor lease state.now.image)) }
{
    if !state.leases().holds(actor, lease) {
        return Err(Unplanned::Tells(MetaReply::Gone));
    }
    let place = place_of(state)?;
    let plan = one_change(
        alloc,
        Prepared::EndLease { lease },
        MetaReply::Done { place },
    )?;
    Ok(plan)
}
