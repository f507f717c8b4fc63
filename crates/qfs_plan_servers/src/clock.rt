//! The clock's tick, with which leases end.
ghost use Rattle.std.specs.Prelude.{◌≡◌, ◌∷◌, map, IfOk, IfErr};
ghost use Rattle.qfs_model_meta.specs.Counters.{risen};
ghost use Rattle.qfs_model_meta.specs.Leases.{has_run_out, leases_over};
ghost use Rattle.qfs_model_meta.specs.ServerRequests.{decide_tick};
ghost use Rattle.qfs_base.specs.Sizes.{LAST_U64};
ghost use Rattle.qfs_state.specs.declared.prepared.Prepared.TheVariants.{ClockTicks, EndLease};
ghost use Rattle.qfs_state.specs.Planning.{IsPlan, IsUnplanned};

use qfs_base::image::Lease;
use qfs_base::reply::MetaReply;
use qfs_lease::LeaseRow;
use qfs_state::{Plan, Prepared, State, Unplanned};
use qfs_table::Run;
use std::alloc::{AllocError, Global};

/// The reading of the clock after this one, where there is a later one.
fn next_reading(clock: u64) -> u64
    ensures { result ≡ risen LAST_U64 clock }
{
    clock.saturating_add(1)
}

/// Whether a lease's time has come: one that lasts until it is given back has none.
#[tactic(auto, unfolding(qfs_model_meta::specs::Leases::has_run_out))]
fn has_run_out(clock: u64, lease: &Lease) -> bool
    ensures { result ≡ has_run_out clock lease.now }
{
    lease.until != 0 && lease.until <= clock
}

/// The clock ticks, and the leases end whose time has come with this reading, by number. Each
/// lease is passed once.
#[tactic(auto, using(crate::proofs::Plans::over_steps))]
fn ticked(alloc: Global, leases: Run<'_, LeaseRow>, now: u64) -> Result<Vec<Prepared>, AllocError>
    ensures { IfOk result (λ changes. changes.items
        ≡ ClockTicks ∷ map EndLease (leases_over now leases.entry)) }
{
    let mut changes = vec![in alloc; Prepared::ClockTicks]?;
    for row in leases {
        let lease = row.lease();
        if has_run_out(now, &lease) {
            changes.push(Prepared::EndLease { lease: lease.lease })?;
        }
    }
    Ok(changes)
}

/// The clock goes on by one, and the leases end whose time has come. At its last reading the clock
/// stays.
pub fn plan_tick(alloc: Global, state: &State) -> Result<Plan, Unplanned>
    ensures ok { IfOk result (IsPlan state.now.image (decide_tick state.now.image)) }
    ensures err { IfErr result (IsUnplanned (decide_tick state.now.image)) }
{
    let now = next_reading(state.clock());
    let changes = ticked(alloc, state.leases().rows(), now)?;
    let reply = MetaReply::Clock { now };
    Ok(Plan { changes, reply })
}
