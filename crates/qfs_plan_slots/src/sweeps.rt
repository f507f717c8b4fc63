//! The requests of a sweep: the deletion of a condemned copy is ordered, and reported.
ghost use Rattle.std.specs.Prelude.{◌≡◌, IfOk, IfErr};
ghost use Rattle.qfs_model_meta.specs.SweepRequests.{decide_order, decide_swept};
ghost use Rattle.qfs_state.specs.Planning.{IsPlan, IsUnplanned};

use qfs_base::reply::MetaReply;
use qfs_planning::{one_change, place_of};
use qfs_state::{Plan, Prepared, State, Unplanned};
use std::alloc::Global;

/// Orders the deletion of the first condemned copy above a number that may go: its server is up,
/// it is live, and no live lease blocks it (Nothing where there is none).
pub fn plan_order(alloc: Global, state: &State, after: u64) -> Result<Plan, Unplanned>
    ensures ok { IfOk result (IsPlan state.now.image (decide_order after state.now.image)) }
    ensures err { IfErr result (IsUnplanned (decide_order after state.now.image)) }
{
    let Some(condemned) = state.next_to_go(after) else {
        return Err(Unplanned::Tells(MetaReply::Nothing));
    };
    let change = Prepared::MarkOrdered {
        number: condemned.number,
    };
    let turn = state.turn();
    let plan = one_change(alloc, change, MetaReply::Ordered { condemned, turn })?;
    Ok(plan)
}

/// A condemned copy is gone: the row of this number is taken, if its deletion was ordered.
pub fn plan_swept(alloc: Global, state: &State, number: u64) -> Result<Plan, Unplanned>
    ensures ok { IfOk result (IsPlan state.now.image (decide_swept number state.now.image)) }
    ensures err { IfErr result (IsUnplanned (decide_swept number state.now.image)) }
{
    let place = place_of(state)?;
    let change = Prepared::TakeCondemned { number };
    let plan = one_change(alloc, change, MetaReply::Done { place })?;
    Ok(plan)
}
