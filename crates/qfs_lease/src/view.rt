//! Leases as those see them who only ask.
ghost use Rattle.std.specs.Prelude.{◌≡◌, ◌<◌, ℕ, List};
ghost use Rattle.qfs_base.specs.declared.image.Lease.{Lease};
ghost use Rattle.qfs_base.specs.Table.{Each};
ghost use Rattle.qfs_lease.specs.LiveLeases.{is_held_below};

use qfs_base::numbers::{FileId, LeaseId};

/// The live leases, and the number that the next one gets.
pub trait LeaseView {
    ghost leases: { Self → List Lease };

    ghost next_number: { Self → ℕ };

    /// The number that the next lease gets: above that of each live one.
    fn next(&self) -> LeaseId
        ensures number { result ≡ next_number self.now }
        ensures above { Each (λ lease. lease.lease < next_number self.now) (leases self.now) };

    /// Whether a live lease on a file has a number below this one.
    fn live_on(&self, file: FileId, below: LeaseId) -> bool
        ensures { result ≡ is_held_below file below (leases self.now) };
}
