//! Rows of an index: leases by a number, their file or the reading at which they end.
ghost use Rattle.std.specs.Prelude.{◌≡◌, ◌≤◌, ◌+◌};
ghost use Rattle.qfs_lease.specs.Indexes.{row_by, file_of, end_of, place_end};

use qfs_base::image::Lease;
use qfs_base::numbers::{FileId, LeaseId};
use qfs_table::{Key, Row, Table, WholeKey};
use std::cmp::Ordering;

/// A lease under the number by which an index has it.
#[derive(Clone, Copy)]
pub struct IndexRow {
    pub by: u64,
    pub lease: LeaseId,
}

impl IndexRow {
    /// A lease under its file.
    pub fn by_file(lease: &Lease) -> IndexRow
        ensures { result ≡ row_by file_of lease.now }
    {
        IndexRow {
            by: u64::from(lease.file),
            lease: lease.lease,
        }
    }

    /// A lease under the reading at which it ends.
    pub fn by_end(lease: &Lease) -> IndexRow
        ensures { result ≡ row_by end_of lease.now }
    {
        IndexRow {
            by: lease.until,
            lease: lease.lease,
        }
    }
}

impl Row for IndexRow {
    ghost use Rattle.qfs_lease.specs.IndexKeys.{index_cmp, index_total};

    ghost cmp = { index_cmp };

    fn cmp_row(&self, other: &Self) -> Ordering {
        self.by.cmp(&other.by).then(self.lease.cmp(&other.lease))
    }

    ghost total = { index_total };
}

impl Key<IndexRow> for IndexRow {
    ghost use Rattle.qfs_lease.specs.IndexKeys.{index_cmp, index_total};
    ghost use Rattle.qfs_table.specs.KeyLaws.{whole_falls};

    ghost order = { index_cmp };

    fn order(&self, row: &IndexRow) -> Ordering {
        self.cmp_row(row)
    }

    ghost falls = { whole_falls index_total };
}

impl WholeKey<IndexRow> for IndexRow {
    ghost use Rattle.qfs_lease.specs.IndexKeys.{index_total};
    ghost use Rattle.qfs_table.specs.KeyLaws.{whole_alone};

    ghost alone = { whole_alone index_total };
}

/// The leases on a file that have numbers below one.
#[derive(Drop)]
pub struct OnFile {
    pub file: FileId,
    pub below: LeaseId,
}

impl Key<IndexRow> for OnFile {
    ghost use Rattle.qfs_lease.specs.IndexKeys.{below_order, below_falls};

    ghost order = { λ key. below_order key.file key.below };

    fn order(&self, row: &IndexRow) -> Ordering {
        let within = if row.lease < self.below {
            Ordering::Equal
        } else {
            Ordering::Less
        };
        u64::from(self.file).cmp(&row.by).then(within)
    }

    ghost falls = { λ key. below_falls key.file key.below };
}

/// The leases that end at a reading of the clock or before.
#[derive(Drop)]
pub struct EndedBy {
    pub clock: u64,
}

impl Key<IndexRow> for EndedBy {
    ghost use Rattle.qfs_lease.specs.IndexKeys.{up_to_order, up_to_falls};

    ghost order = { λ key. up_to_order key.clock };

    fn order(&self, row: &IndexRow) -> Ordering {
        if row.by <= self.clock {
            Ordering::Equal
        } else {
            Ordering::Less
        }
    }

    ghost falls = { λ key. up_to_falls key.clock };
}

/// Puts a lease into the index of those that end, unless it lasts until it is given back.
pub fn put_end(by_end: &mut Table<IndexRow>, lease: &Lease)
    requires { 1 ≤ by_end.old.spare }
    ensures rows { by_end.new.rows ≡ place_end lease.now by_end.old.rows }
    ensures spare { by_end.old.spare ≤ by_end.new.spare + 1 }
{
    if lease.until != 0 {
        by_end.insert(IndexRow::by_end(lease));
    }
}
