//! Leases as rows of a table, by their numbers.
ghost use Rattle.std.specs.Prelude.{◌≡◌};

use qfs_base::image::Lease;
use qfs_base::numbers::LeaseId;
use qfs_table::{Key, Row, WholeKey};
use std::cmp::Ordering;
use std::marker::Model;

/// A live lease. Contracts see the lease itself.
#[derive(Drop)]
pub struct LeaseRow {
    lease: Lease,
}

impl Model for LeaseRow {
    ghost use Rattle.qfs_base.specs.declared.image.Lease.{Lease};

    ghost Value = { Lease };

    ghost view = { λ row. row.lease };
}

impl LeaseRow {
    pub fn new(lease: Lease) -> LeaseRow
        ensures { result ≡ lease }
    {
        LeaseRow { lease }
    }

    pub fn lease(&self) -> Lease
        ensures { result ≡ self.now }
    {
        self.lease
    }
}

impl Row for LeaseRow {
    ghost use Rattle.std.specs.Cmp.{nat_cmp_total, on_total};
    ghost use Rattle.qfs_base.specs.declared.image.Lease.{Lease};
    ghost use Rattle.qfs_model_meta.specs.Leases.{lease_cmp};

    ghost cmp = { lease_cmp };

    fn cmp_row(&self, other: &Self) -> Ordering {
        self.lease.lease.cmp(&other.lease.lease)
    }

    ghost total = { on_total (λ (lease : Lease). lease.lease) nat_cmp_total };
}

/// The number of a lease as a key.
#[derive(Drop)]
pub struct ByNumber {
    pub lease: LeaseId,
}

impl Key<LeaseRow> for ByNumber {
    ghost use Rattle.std.specs.Cmp.{nat_cmp_total};
    ghost use Rattle.qfs_model_meta.specs.Leases.{lease_order};
    ghost use Rattle.qfs_table.specs.KeyLaws.{whole_falls};

    ghost order = { λ key. lease_order key.lease };

    fn order(&self, row: &LeaseRow) -> Ordering {
        self.lease.cmp(&row.lease.lease)
    }

    ghost falls = { λ key a b. whole_falls nat_cmp_total key.lease a.lease b.lease };
}

impl WholeKey<LeaseRow> for ByNumber {
    ghost use Rattle.std.specs.Cmp.{nat_cmp_total};
    ghost use Rattle.qfs_table.specs.KeyLaws.{whole_alone};

    ghost alone = { λ key a b. whole_alone nat_cmp_total key.lease a.lease b.lease };
}

/// The leases with this number and all above it.
#[derive(Drop)]
pub struct AtLeast {
    pub lease: LeaseId,
}

impl Key<LeaseRow> for AtLeast {
    ghost use Rattle.qfs_lease.specs.IndexKeys.{from_falls, from_order};

    ghost order = { λ key. from_order key.lease };

    fn order(&self, row: &LeaseRow) -> Ordering {
        if self.lease <= row.lease.lease {
            Ordering::Equal
        } else {
            Ordering::Greater
        }
    }

    ghost falls = { λ key. from_falls key.lease };
}
