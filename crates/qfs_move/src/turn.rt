//! How a command that moves copies goes on when a node has answered.
#![tactic(auto, unfolding(crate::specs::Rest::rest_of_move, crate::specs::Rest::report_of_move, crate::specs::Turns::after_answer, qfs_model_actor::specs::Move::after_move_at, qfs_model_actor::specs::Move::after_balance_next, qfs_model_actor::specs::Move::after_evac_next, qfs_model_actor::specs::Move::after_leave, qfs_model_actor::specs::Move::evacuated, qfs_machine::specs::Endings::report_of_ending))]

ghost use Rattle.std.specs.Prelude.{◌≡◌, ℕ, true};
ghost use Rattle.qfs_base.specs.Shape.{Shape};
ghost use Rattle.qfs_model_actor.specs.Grants.{is_in_range};
ghost use Rattle.qfs_model_actor.specs.Move.{after_leave, after_move_at, evacuated};
ghost use Rattle.qfs_model_actor.specs.Work.{goes_on};
ghost use Rattle.qfs_move.specs.Rest.{leaving_of, rest_of_copy, rest_of_move};
ghost use Rattle.qfs_move.specs.Rest.{HoldsNext, IsErrand, IsMoveStage, IsSupplied};
ghost use Rattle.qfs_move.specs.Turns.{after_answer, after_balance, after_evac, rest_of_grant};
ghost use Rattle.qfs_move.specs.Turns.{AsksMeta};

use crate::copying::{after_copying, ended};
use crate::ending::MoveEnding;
use crate::grant::source_of;
use crate::stage::{Balancing, Copying, Errand, Evacuating, OneMove, Progress, Stage};
use crate::step::{after_step, balanced, evacuate_on};
use qfs_base::chunk::Copy;
use qfs_base::listing::Listing;
use qfs_base::numbers::ServerId;
use qfs_base::reply::{Granted, MetaReply, NodeReply};
use qfs_machine::Ending;
use qfs_repair::{Chunk, Delivery, is_grant_of, is_in_range, step_after};
use qfs_stripe::Layout;
use std::alloc::Global;

/// The stage of a command that reads a copy from this source under a grant in its range.
fn begin_copy(alloc: Global, layout: &Layout, errand: Errand, grant: Granted, source: Copy) -> Stage
    requires errand { IsErrand errand }
    requires range { is_in_range grant ≡ true }
    ensures rest { rest_of_move layout.now result ≡ rest_of_copy layout.now errand grant source }
    ensures at { IsMoveStage layout.now result }
    ensures holds { HoldsNext result }
{
    let _ = layout;
    if grant.rows == 0 {
        let chunk = Chunk::new(Listing::new(alloc));
        return Stage::Delivering(errand, source, Delivery::Storing(grant, chunk));
    }
    let copying = Copying {
        grant,
        source,
        chunk: Vec::new(alloc),
        group: 0,
    };
    Stage::Copying(errand, copying)
}

/// The stage of a command whose slot was granted.
fn begin(alloc: Global, layout: &Layout, errand: Errand, grant: Granted) -> Stage
    requires { IsErrand errand }
    ensures rest { rest_of_move layout.now result ≡ rest_of_grant layout.now errand grant }
    ensures at { IsMoveStage layout.now result }
    ensures holds { HoldsNext result }
{
    if !is_in_range(&grant) {
        return ended(Ending::Unnamed);
    }
    match source_of(&grant) {
        Some(source) => begin_copy(alloc, layout, errand, grant, source),
        None => ended(Ending::Unnamed),
    }
}

/// The stage of a move of one copy whose grant has come: it may be of another slot.
fn one_granted(alloc: Global, layout: &Layout, one: &OneMove, grant: Granted) -> Stage
    ensures rest { rest_of_move layout.now result
        ≡ after_move_at layout.now one.now.index one.now.slot (MetaReply.Granted grant) }
    ensures at { IsMoveStage layout.now result }
    ensures holds { HoldsNext result }
{
    if is_grant_of(one.index, one.slot, &grant) {
        begin(alloc, layout, Errand::One, grant)
    } else {
        ended(Ending::Unnamed)
    }
}

/// The ending of a move of one copy that was refused.
fn refused(answer: &MetaReply) -> MoveEnding
    requires { (grant : Granted) → answer.now ≡ MetaReply.Granted grant → ⊥ }
    ensures { (layout : Shape) (index slot : ℕ) → rest_of_move layout (Stage.Ended result)
        ≡ after_move_at layout index slot answer.now }
{
    match answer {
        MetaReply::BadPath(refusal) => MoveEnding::BadPath(*refusal),
        MetaReply::NoBlock => MoveEnding::NoBlock,
        MetaReply::Taken { version } => MoveEnding::Taken { version: *version },
        MetaReply::Away { server } => MoveEnding::Away { server: *server },
        MetaReply::Barred { server } => MoveEnding::Barred { server: *server },
        _ => MoveEnding::Common(Ending::Unnamed),
    }
}

/// The stage of a move of one copy at the answer to its request for a grant.
fn after_one(alloc: Global, layout: &Layout, one: &OneMove, answer: MetaReply) -> Stage
    ensures rest { rest_of_move layout.now result
        ≡ after_move_at layout.now one.now.index one.now.slot answer }
    ensures at { IsMoveStage layout.now result }
    ensures holds { HoldsNext result }
{
    match answer {
        MetaReply::Granted(grant) => one_granted(alloc, layout, one, grant),
        answer => Stage::Ended(refused(&answer)),
    }
}

/// The stage of a rebalancing at the answer to its request for a grant.
fn after_balance(alloc: Global, layout: &Layout, at: Balancing, answer: MetaReply) -> Stage
    requires { IsErrand (Errand.Balance at) }
    ensures rest { rest_of_move layout.now result ≡ after_balance layout.now at answer }
    ensures at { IsMoveStage layout.now result }
    ensures holds { HoldsNext result }
{
    match answer {
        MetaReply::Granted(grant) => begin(alloc, layout, Errand::Balance(at), grant),
        MetaReply::Nothing => balanced(at.moved, 0),
        _ => ended(Ending::Unnamed),
    }
}

/// The stage of an evacuation whose server takes no new chunks, or whose answer doesn't say so.
fn after_leave(layout: &Layout, server: ServerId, budget: u32, answer: &MetaReply) -> Stage
    ensures rest { rest_of_move layout.now result
        ≡ after_leave layout.now server budget answer.now }
    ensures at { IsMoveStage layout.now result }
    ensures holds { HoldsNext result }
{
    let so_far = Progress {
        after: None,
        moved: 0,
        failed: 0,
    };
    match answer {
        MetaReply::Done { .. } => evacuate_on(layout, server, budget, so_far),
        _ => ended(Ending::Unnamed),
    }
}

/// The stage of an evacuation at the answer to its request for a grant.
fn after_evac(alloc: Global, layout: &Layout, at: Evacuating, answer: MetaReply) -> Stage
    requires { IsErrand (Errand.Evacuate at) }
    ensures rest { rest_of_move layout.now result ≡ after_evac layout.now at answer }
    ensures at { IsMoveStage layout.now result }
    ensures holds { HoldsNext result }
{
    let server = at.server;
    let so_far = at.so_far;
    match answer {
        MetaReply::Granted(grant) => begin(alloc, layout, Errand::Evacuate(at), grant),
        MetaReply::Nothing => Stage::Counting { server, so_far },
        MetaReply::NoServer { block, slot } => Stage::Ended(MoveEnding::NoServer {
            moved: so_far.moved,
            failed: so_far.failed,
            block,
            slot,
        }),
        _ => ended(Ending::Unnamed),
    }
}

/// The stage of an evacuation that asked how many copies its server has left.
fn counted(layout: &Layout, so_far: Progress, answer: &MetaReply) -> Stage
    ensures rest { rest_of_move layout.now result ≡ evacuated (leaving_of so_far) answer.now }
    ensures at { IsMoveStage layout.now result }
    ensures holds { HoldsNext result }
{
    let _ = layout;
    match answer {
        MetaReply::Left { count } => Stage::Ended(MoveEnding::Evacuated {
            moved: so_far.moved,
            failed: so_far.failed,
            left: *count,
        }),
        _ => ended(Ending::Unnamed),
    }
}

/// The stage behind an answer of the metaserver that doesn't end every command.
fn answered(alloc: Global, layout: &Layout, stage: Stage, answer: MetaReply) -> Stage
    requires at { IsMoveStage layout.now stage }
    requires asks { AsksMeta stage }
    ensures rest { rest_of_move layout.now result ≡ after_answer layout.now stage answer }
    ensures at { IsMoveStage layout.now result }
    ensures holds { HoldsNext result }
{
    match stage {
        Stage::Asking(one) => after_one(alloc, layout, &one, answer),
        Stage::Balancing(at) => after_balance(alloc, layout, at, answer),
        Stage::Leaving { server, budget } => after_leave(layout, server, budget, &answer),
        Stage::Evacuating(at) => after_evac(alloc, layout, at, answer),
        Stage::Counting { so_far, .. } => counted(layout, so_far, &answer),
        _ => unreachable!(),
    }
}

/// The stage behind an answer of the metaserver to a command that holds nothing there.
fn after_meta(alloc: Global, layout: &Layout, stage: Stage, answer: MetaReply) -> Stage
    requires at { IsMoveStage layout.now stage }
    requires asks { AsksMeta stage }
    ensures rest { rest_of_move layout.now result
        ≡ goes_on (rest_of_move layout.now stage) (NodeReply.Meta answer) }
    ensures at { IsMoveStage layout.now result }
    ensures holds { HoldsNext result }
{
    match Ending::of_meta(&answer) {
        Some(ending) => ended(ending),
        None => answered(alloc, layout, stage, answer),
    }
}

/// The stage behind a node's reply to a command that asks the metaserver and holds nothing there.
fn after_asking(alloc: Global, layout: &Layout, stage: Stage, reply: NodeReply) -> Stage
    requires at { IsMoveStage layout.now stage }
    requires asks { AsksMeta stage }
    ensures rest { rest_of_move layout.now result ≡ goes_on (rest_of_move layout.now stage) reply }
    ensures at { IsMoveStage layout.now result }
    ensures holds { HoldsNext result }
{
    match reply {
        NodeReply::Meta(answer) => after_meta(alloc, layout, stage, answer),
        NodeReply::Chunk(_) => ended(Ending::Unnamed),
    }
}

/// The stage behind a node's reply, for which there is the memory. A command that has ended stays
/// so.
pub fn stage_after(alloc: Global, layout: &Layout, stage: Stage, reply: NodeReply) -> Stage
    requires at { IsMoveStage layout.now stage }
    requires supplied { IsSupplied layout.now stage }
    ensures rest { rest_of_move layout.now result ≡ goes_on (rest_of_move layout.now stage) reply }
    ensures at { IsMoveStage layout.now result }
    ensures holds { HoldsNext result }
{
    match stage {
        Stage::Copying(errand, copying) => after_copying(layout, errand, copying, &reply),
        Stage::Delivering(errand, source, delivery) => {
            after_step(layout, errand, source, step_after(delivery, &reply))
        }
        Stage::Ended(ending) => Stage::Ended(ending),
        stage => after_asking(alloc, layout, stage, reply),
    }
}
