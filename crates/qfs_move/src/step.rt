//! How a command goes on behind a copy that was moved, or could not be.
#![tactic(auto, unfolding(crate::specs::Rest::rest_of_move, crate::specs::Rest::report_of_move, crate::specs::Rest::done_of, crate::specs::Rest::failed_of, qfs_repair::specs::Deliveries::rest_of_step, qfs_repair::specs::Deliveries::report_of_failure, qfs_machine::specs::Endings::report_of_ending))]

ghost use Rattle.std.specs.Prelude.{◌≡◌, ◌+◌, ◌<◌, ◌^◌};
ghost use Rattle.qfs_base.specs.Shape.{Shape};
ghost use Rattle.qfs_model_actor.specs.Move.{evacuate_on, rebalance_on};
ghost use Rattle.qfs_move.specs.Rest.{course_of, done_of, failed_of, leaving_of, rest_of_move};
ghost use Rattle.qfs_move.specs.Rest.{HoldsNext, IsErrand, IsMoveStage};
ghost use Rattle.qfs_repair.specs.Deliveries.{report_of_failure, rest_of_step, IsStep};

use crate::copying::ended;
use crate::ending::{MoveEnding, Moved};
use crate::stage::{Balancing, Errand, Evacuating, Progress, Stage};
use qfs_base::chunk::Copy;
use qfs_base::numbers::ServerId;
use qfs_base::reply::Granted;
use qfs_base::request::SlotId;
use qfs_repair::{Failure, Step};
use qfs_stripe::Layout;

/// The stage of a rebalancing that has ended with so many moves and so many failures.
pub fn balanced(moved: u32, failed: u32) -> Stage
    ensures { result ≡ Stage.Ended (MoveEnding.Rebalanced moved failed) }
{
    Stage::Ended(MoveEnding::Rebalanced { moved, failed })
}

/// The stage of a rebalancing that has moved so many copies, and may move so many more.
pub fn balance_on(layout: &Layout, more: u32, moved: u32) -> Stage
    requires { moved + more < 2 ^ 32 }
    ensures rest { rest_of_move layout.now result ≡ rebalance_on layout.now more moved }
    ensures at { IsMoveStage layout.now result }
    ensures holds { HoldsNext result }
{
    let _ = layout;
    if more == 0 {
        return balanced(moved, 0);
    }
    let more = more - 1;
    Stage::Balancing(Balancing { more, moved })
}

/// The stage of an evacuation that stands so, and may move so many more copies.
pub fn evacuate_on(layout: &Layout, server: ServerId, more: u32, so_far: Progress) -> Stage
    requires { so_far.moved + so_far.failed + more < 2 ^ 32 }
    ensures rest { rest_of_move layout.now result
        ≡ evacuate_on layout.now server more (leaving_of so_far) }
    ensures at { IsMoveStage layout.now result }
    ensures holds { HoldsNext result }
{
    let _ = layout;
    if more == 0 {
        return Stage::Counting { server, so_far };
    }
    let more = more - 1;
    Stage::Evacuating(Evacuating {
        server,
        more,
        so_far,
    })
}

/// The slot of a grant.
fn slot_of(grant: &Granted) -> SlotId
    ensures { result ≡ record { block = grant.now.block; slot = grant.now.slot } }
{
    SlotId {
        block: grant.block,
        slot: grant.slot,
    }
}

/// The ending of a command whose one copy was moved.
fn moved(grant: &Granted, source: Copy) -> MoveEnding
    ensures { (layout : Shape) → rest_of_move layout (Stage.Ended result)
        ≡ done_of layout source grant.now Errand.One }
{
    MoveEnding::Moved(Moved {
        block: grant.block,
        slot: grant.slot,
        from: source.server,
        to: grant.server,
        version: grant.version,
    })
}

/// The stage behind a copy that was moved.
fn done(layout: &Layout, errand: Errand, source: Copy, grant: &Granted) -> Stage
    requires { IsErrand errand }
    ensures rest { rest_of_move layout.now result ≡ done_of layout.now source grant.now errand }
    ensures at { IsMoveStage layout.now result }
    ensures holds { HoldsNext result }
{
    match errand {
        Errand::One => Stage::Ended(moved(grant, source)),
        Errand::Balance(at) => balance_on(layout, at.more, at.moved + 1),
        Errand::Evacuate(at) => {
            let so_far = Progress {
                after: Some(slot_of(grant)),
                moved: at.so_far.moved + 1,
                failed: at.so_far.failed,
            };
            evacuate_on(layout, at.server, at.more, so_far)
        }
    }
}

/// The stage behind a copy that could not be moved: a rebalancing ends there, and an evacuation
/// goes on.
fn not_done(layout: &Layout, errand: Errand, grant: &Granted, failure: Failure) -> Stage
    requires { IsErrand errand }
    ensures rest { rest_of_move layout.now result
        ≡ failed_of layout.now grant.now (report_of_failure failure) errand }
    ensures at { IsMoveStage layout.now result }
    ensures holds { HoldsNext result }
{
    match errand {
        Errand::One => Stage::Ended(MoveEnding::Failed(failure)),
        Errand::Balance(at) => balanced(at.moved, 1),
        Errand::Evacuate(at) => {
            let so_far = Progress {
                after: Some(slot_of(grant)),
                moved: at.so_far.moved,
                failed: at.so_far.failed + 1,
            };
            evacuate_on(layout, at.server, at.more, so_far)
        }
    }
}

/// The stage behind what came of a chunk on its way. Takes no memory.
pub fn after_step(layout: &Layout, errand: Errand, source: Copy, step: Step) -> Stage
    requires errand { IsErrand errand }
    requires step { IsStep step }
    ensures rest { rest_of_move layout.now result
        ≡ rest_of_step (course_of layout.now errand source) step }
    ensures at { IsMoveStage layout.now result }
    ensures holds { HoldsNext result }
{
    match step {
        Step::Goes(delivery) => Stage::Delivering(errand, source, delivery),
        Step::Done(grant) => done(layout, errand, source, &grant),
        Step::Failed(grant, failure) => not_done(layout, errand, &grant, failure),
        Step::Ended(ending) => ended(ending),
    }
}
