//! The requests by which a server goes down, leaves for good or hibernates, and the one that
//! counts what is left on it.
ghost use Rattle.std.specs.Prelude.{◌≡◌, length, IfOk, IfErr};
ghost use Rattle.qfs_model_meta.specs.Grammar.{IsServer};
ghost use Rattle.qfs_model_meta.specs.ServerRequests.{decide_bye, decide_hibernate, decide_leave, decide_left_on};
ghost use Rattle.qfs_model_meta.specs.Servers.{reading_after};
ghost use Rattle.qfs_state.specs.Planning.{IsPlan, IsUnplanned};

use qfs_base::numbers::ServerId;
use qfs_base::reply::MetaReply;
use qfs_place::{loads_are_counts, server_at};
use qfs_planning::{one_change, place_of};
use qfs_state::{Plan, Prepared, State, Unplanned};
use std::alloc::Global;

/// A server went down.
#[tactic(auto, unfolding(qfs_model_meta::specs::ServerRequests::decide_bye))]
pub fn plan_bye(alloc: Global, state: &State, server: ServerId) -> Result<Plan, Unplanned>
    requires { IsServer (length state.now.image.servers) server }
    ensures ok { IfOk result (IsPlan state.now.image (decide_bye server state.now.image)) }
    ensures err { IfErr result (IsUnplanned (decide_bye server state.now.image)) }
{
    let place = place_of(state)?;
    let reply = MetaReply::Done { place };
    let plan = one_change(alloc, Prepared::ServerDown { server }, reply)?;
    Ok(plan)
}

/// A server takes no new chunks from now on.
#[tactic(auto, unfolding(qfs_model_meta::specs::ServerRequests::decide_leave))]
pub fn plan_leave(alloc: Global, state: &State, server: ServerId) -> Result<Plan, Unplanned>
    requires { IsServer (length state.now.image.servers) server }
    ensures ok { IfOk result (IsPlan state.now.image (decide_leave server state.now.image)) }
    ensures err { IfErr result (IsUnplanned (decide_leave server state.now.image)) }
{
    let place = place_of(state)?;
    let reply = MetaReply::Done { place };
    let plan = one_change(alloc, Prepared::ServerLeaves { server }, reply)?;
    Ok(plan)
}

/// The reading of the clock after so many ticks, at most the last one.
#[tactic(auto, unfolding(qfs_model_meta::specs::Servers::reading_after))]
fn reading_after(clock: u64, ticks: u32) -> u64
    ensures { result ≡ reading_after clock ticks }
{
    clock.saturating_add(u64::from(ticks))
}

/// A server goes down for so many ticks of the clock, at most until its last reading. It has to
/// be up (NotUp).
#[tactic(auto, using(qfs_planning::specs::Deciding::unless_true, qfs_planning::specs::Deciding::unless_false), unfolding(qfs_model_meta::specs::ServerRequests::decide_hibernate))]
pub fn plan_hibernate(
    alloc: Global,
    state: &State,
    server: ServerId,
    ticks: u32,
) -> Result<Plan, Unplanned>
    requires { IsServer (length state.now.image.servers) server }
    ensures ok { IfOk result (IsPlan state.now.image
        (decide_hibernate server ticks state.now.image)) }
    ensures err { IfErr result (IsUnplanned (decide_hibernate server ticks state.now.image)) }
{
    if !server_at(state.servers().as_slice(), server).up {
        return Err(Unplanned::Tells(MetaReply::NotUp));
    }
    let until = reading_after(state.clock(), ticks);
    let change = Prepared::ServerSleeps { server, until };
    let plan = one_change(alloc, change, MetaReply::Until { clock: until })?;
    Ok(plan)
}

/// How many live current copies and grants a server still has. Nothing changes, so there is never
/// a plan.
pub fn plan_left_on(state: &State, server: ServerId) -> Result<Plan, Unplanned>
    requires { IsServer (length state.now.image.servers) server }
    ensures ok { IfOk result (IsPlan state.now.image (decide_left_on server state.now.image)) }
    ensures err { IfErr result (IsUnplanned (decide_left_on server state.now.image)) }
{
    loads_are_counts();
    let count = state.loads().on(server);
    Err(Unplanned::Tells(MetaReply::Left { count }))
}
