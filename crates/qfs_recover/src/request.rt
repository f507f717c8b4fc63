//! What a command that recovers slots asks at each stage.
#![tactic(auto, unfolding(crate::specs::Rest::rest_of_recovery, qfs_model_actor::specs::Recover::recover_work, qfs_model_actor::specs::Recover::heal_on, qfs_model_actor::specs::Ask::ask, qfs_model_actor::specs::Hold::ask_or, qfs_model_actor::specs::Work::request_in, qfs_model_actor::specs::Work::node_of_request))]

ghost use Rattle.std.specs.Prelude.{◌≡◌, IfOk, IfSome, IsSome, OnErr, OnOk};
ghost use Rattle.qfs_base.specs.Shape.{Shape};
ghost use Rattle.qfs_machine.specs.Asking.{Asks, AsksNext, node_asked};
ghost use Rattle.qfs_recover.specs.Rest.{rest_of_recovery, rest_of_starving};
ghost use Rattle.qfs_recover.specs.Rest.{HoldsNext, IsRecoveryStage, IsStarving, IsSupplied};
ghost use Rattle.qfs_repair.specs.Deliveries.{Course, IsAskedByRepair};

use crate::restoring::slot_request;
use crate::stage::{Heal, OneRecovery, Stage, Starving};
use qfs_base::layout::Layout;
use qfs_base::numbers::NodeId;
use qfs_base::request::{MetaRequest, NodeRequest};
use qfs_repair::abandon_request;
use qfs_window::causes_of;
use std::alloc::{AllocError, Global};

/// The node number of the metaserver.
const METASERVER: NodeId = 0;

/// The request for the recovery of one slot.
fn one_request(one: &OneRecovery) -> Result<NodeRequest, AllocError>
    ensures request { IfOk result (λ request. (layout : Shape)
        → Asks (rest_of_recovery layout (Stage.Asking one.now)) request) }
    ensures askable { IfOk result IsAskedByRepair }
{
    let path = one.path.clone()?;
    Ok(NodeRequest::Meta(MetaRequest::RecoverAt {
        path,
        index: one.index,
        slot: one.slot,
    }))
}

/// The request for the next missing slot.
fn heal_request(at: Heal) -> NodeRequest
    ensures request { (layout : Shape) → Asks (rest_of_recovery layout (Stage.Healing at)) result }
    ensures askable { IsAskedByRepair result }
{
    NodeRequest::Meta(MetaRequest::HealNext { after: at.after })
}

/// The request that gives a grant up since too few slots can be read, for which the causes are
/// listed.
fn starving_request(alloc: Global, starving: &mut Starving) -> Result<NodeRequest, AllocError>
    requires { IsStarving starving.old }
    ensures request { IfOk result (λ request. (course : Course)
        → Asks (rest_of_starving course starving.old.grant starving.old.sources) request) }
    ensures askable { IfOk result IsAskedByRepair }
    ensures grant { starving.new.grant ≡ starving.old.grant }
    ensures sources { starving.new.sources ≡ starving.old.sources }
    ensures at { IsStarving starving.new }
    ensures some { OnOk result (IsSome starving.new.causes) }
{
    let list = causes_of(alloc, &starving.sources)?;
    starving.causes = Some(list);
    Ok(abandon_request(&starving.grant))
}

/// Prepares the next request of a command, or that it has ended: takes the memory for it and for
/// its reply, and hands on the chunk that it stores. For want of memory it stands as before.
pub fn prepare(
    alloc: Global,
    layout: &Layout,
    stage: &mut Stage,
) -> Result<Option<NodeRequest>, AllocError>
    requires at { IsRecoveryStage layout.now stage.old }
    requires holds { HoldsNext stage.old }
    ensures request { IfOk result (AsksNext (rest_of_recovery layout.now stage.old)) }
    ensures askable { IfOk result (λ request. IfSome request IsAskedByRepair) }
    ensures rest { rest_of_recovery layout.now stage.new ≡ rest_of_recovery layout.now stage.old }
    ensures at { IsRecoveryStage layout.now stage.new }
    ensures supplied { OnOk result (IsSupplied layout.now stage.new) }
    ensures holds { OnErr result (HoldsNext stage.new) }
{
    let request = match stage {
        Stage::Asking(one) => one_request(one)?,
        Stage::Healing(at) => heal_request(*at),
        Stage::Restoring(_, restoring) => slot_request(alloc, layout, restoring)?,
        Stage::Starving(_, starving) => starving_request(alloc, starving)?,
        Stage::Delivering(_, delivery) => delivery.request(),
        Stage::Ended(_) => return Ok(None),
    };
    Ok(Some(request))
}

/// The node of the next request: 0 is the metaserver, s is server s. None where the command has
/// ended.
pub fn node_of(layout: &Layout, stage: &Stage) -> Option<NodeId>
    requires { IsRecoveryStage layout.now stage.now }
    ensures { result ≡ node_asked (rest_of_recovery layout.now stage.now) }
{
    let _ = layout;
    match stage {
        Stage::Restoring(_, restoring) => Some(restoring.read.copy.server),
        Stage::Delivering(_, delivery) => Some(delivery.goes_to()),
        Stage::Ended(_) => None,
        _ => Some(METASERVER),
    }
}
