//! The live leases.
ghost use Rattle.std.specs.Prelude.{◌≡◌};
ghost use Rattle.qfs_model_meta.specs.Leases.{holds_lease, end_lease};

use crate::rows::{RowChange, take_items};
use qfs_base::image::{CondemnedRow, Lease, LeaseList};
use qfs_base::listing::Listing;
use qfs_base::numbers::{ActorId, LeaseId};
use std::alloc::Global;

/// Whether an actor holds the live lease of this number.
#[tactic(auto, unfolding(qfs_model_meta::specs::Leases::holds_lease, qfs_model_meta::specs::Leases::is_lease))]
pub fn holds_lease(leases: &[Lease], actor: ActorId, number: LeaseId) -> bool
    ensures { result ≡ holds_lease actor number leases.now }
{
    leases
        .iter()
        .any(|lease| lease.lease == number && lease.actor == actor)
}

/// Ends a lease.
pub fn end_lease(alloc: Global, leases: &mut LeaseList, number: LeaseId)
    ensures { leases.new ≡ end_lease number leases.old }
{
    let mut rows = take_items(alloc, leases);
    rows.retain(|lease| lease.lease != number);
    *leases = Listing::from_vec(rows);
}

/// A lease that ended blocks a condemned copy no more.
#[derive(Drop)]
pub struct Unblock {
    pub alloc: Global,
    pub lease: LeaseId,
}

impl RowChange<CondemnedRow> for Unblock {
    ghost use Rattle.qfs_model_meta.specs.Condemned.{unblock};

    ghost changed = { λ ended row. unblock ended.lease row };

    fn change(&self, row: &mut CondemnedRow) {
        let mut blockers = take_items(self.alloc, &mut row.blockers);
        blockers.retain(|blocker| *blocker != self.lease);
        row.blockers = Listing::from_vec(blockers);
    }
}
