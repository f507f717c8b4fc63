//! What a command that moves copies asks at each stage.
#![tactic(auto, unfolding(crate::specs::Rest::rest_of_move, qfs_model_actor::specs::Move::move_work, qfs_model_actor::specs::Move::rebalance_on, qfs_model_actor::specs::Move::evacuate_on, qfs_model_actor::specs::Move::evacuate_work, qfs_model_actor::specs::Move::count_left, qfs_model_actor::specs::Ask::ask, qfs_model_actor::specs::Hold::ask_or, qfs_model_actor::specs::Work::request_in, qfs_model_actor::specs::Work::node_of_request))]

ghost use Rattle.std.specs.Prelude.{◌≡◌, IfOk, IfSome, OnErr, OnOk};
ghost use Rattle.qfs_base.specs.Shape.{Shape};
ghost use Rattle.qfs_machine.specs.Asking.{Asks, AsksNext, node_asked};
ghost use Rattle.qfs_move.specs.Rest.{rest_of_copying, rest_of_move};
ghost use Rattle.qfs_move.specs.Rest.{HasRoom, HoldsNext, IsCopying, IsMoveStage, IsSupplied};
ghost use Rattle.qfs_repair.specs.Deliveries.{Course, IsAskedByRepair};

use crate::copying::{fetch_request, make_room};
use crate::stage::{Copying, Evacuating, OneMove, Stage};
use qfs_base::numbers::NodeId;
use qfs_base::request::{MetaRequest, NodeRequest};
use qfs_stripe::Layout;
use std::alloc::{AllocError, Global};

/// The node number of the metaserver.
const METASERVER: NodeId = 0;

/// The request for the move of one copy.
fn one_request(one: &OneMove) -> Result<NodeRequest, AllocError>
    ensures request { IfOk result (λ request. (layout : Shape)
        → Asks (rest_of_move layout (Stage.Asking one.now)) request) }
    ensures askable { IfOk result IsAskedByRepair }
{
    let path = one.path.clone()?;
    Ok(NodeRequest::Meta(MetaRequest::MoveAt {
        path,
        index: one.index,
        slot: one.slot,
        to: one.to,
    }))
}

/// The request for the next copy on a server that is emptied.
fn evac_request(at: Evacuating) -> NodeRequest
    ensures request { (layout : Shape)
        → Asks (rest_of_move layout (Stage.Evacuating at)) result }
    ensures askable { IsAskedByRepair result }
{
    NodeRequest::Meta(MetaRequest::EvacNext {
        server: at.server,
        after: at.so_far.after,
    })
}

/// Takes room for a whole chunk, and gives the request for the bytes of a group.
fn group_request(
    alloc: Global,
    layout: &Layout,
    copying: &mut Copying,
) -> Result<NodeRequest, AllocError>
    requires { IsCopying layout.now copying.old }
    ensures request { IfOk result (λ request. (course : Course)
        → Asks (rest_of_copying layout.now course copying.old) request) }
    ensures askable { IfOk result IsAskedByRepair }
    ensures rest { (course : Course) → rest_of_copying layout.now course copying.new
        ≡ rest_of_copying layout.now course copying.old }
    ensures at { IsCopying layout.now copying.new }
    ensures room { OnOk result (HasRoom layout.now copying.new) }
    ensures source { copying.new.source ≡ copying.old.source }
{
    make_room(alloc, layout, copying)?;
    fetch_request(alloc, layout, copying)
}

/// Prepares the next request of a command, or that it has ended: takes the memory for it and for
/// its reply, and hands on the chunk that it stores. For want of memory it stands as before.
pub fn prepare(
    alloc: Global,
    layout: &Layout,
    stage: &mut Stage,
) -> Result<Option<NodeRequest>, AllocError>
    requires at { IsMoveStage layout.now stage.old }
    requires holds { HoldsNext stage.old }
    ensures request { IfOk result (AsksNext (rest_of_move layout.now stage.old)) }
    ensures askable { IfOk result (λ request. IfSome request IsAskedByRepair) }
    ensures rest { rest_of_move layout.now stage.new ≡ rest_of_move layout.now stage.old }
    ensures at { IsMoveStage layout.now stage.new }
    ensures supplied { OnOk result (IsSupplied layout.now stage.new) }
    ensures holds { OnErr result (HoldsNext stage.new) }
{
    let request = match stage {
        Stage::Asking(one) => one_request(one)?,
        Stage::Balancing(_) => NodeRequest::Meta(MetaRequest::BalanceNext),
        Stage::Leaving { server, .. } => NodeRequest::Meta(MetaRequest::Leave { server: *server }),
        Stage::Evacuating(at) => evac_request(*at),
        Stage::Counting { server, .. } => {
            NodeRequest::Meta(MetaRequest::LeftOn { server: *server })
        }
        Stage::Copying(_, copying) => group_request(alloc, layout, copying)?,
        Stage::Delivering(_, _, delivery) => delivery.request(),
        Stage::Ended(_) => return Ok(None),
    };
    Ok(Some(request))
}

/// The node of the next request: 0 is the metaserver, s is server s. None where the command has
/// ended.
pub fn node_of(layout: &Layout, stage: &Stage) -> Option<NodeId>
    requires { IsMoveStage layout.now stage.now }
    ensures { result ≡ node_asked (rest_of_move layout.now stage.now) }
{
    let _ = layout;
    match stage {
        Stage::Copying(_, copying) => Some(copying.source.server),
        Stage::Delivering(_, _, delivery) => Some(delivery.goes_to()),
        Stage::Ended(_) => None,
        _ => Some(METASERVER),
    }
}
