//! The index of the condemned copies by what they are copies of, on which server and in which life.
ghost use Rattle.std.specs.Prelude.{◌≡◌};
ghost use Rattle.qfs_blocks.specs.CopyIndex.{copy_key, copy_row, place_cmp};

use qfs_base::chunk::{BlockId, Copy as ChunkCopy};
use qfs_base::image::CondemnedEntry;
use qfs_base::numbers::{Life, ServerId, Slot, Version};
use qfs_base::request::SlotId;
use qfs_table::{Key, Row, WholeKey};
use std::cmp::Ordering;

/// A condemned copy under what it is a copy of.
#[derive(Clone, Copy)]
pub struct CopyRow {
    pub server: ServerId,
    pub life: Life,
    pub block: BlockId,
    pub slot: Slot,
    pub version: Version,
    pub number: u64,
}

impl CopyRow {
    /// The row of a condemned copy.
    pub fn of(entry: &CondemnedEntry) -> CopyRow
        ensures { result ≡ copy_row entry.now }
    {
        let condemned = entry.condemned;
        let copy = condemned.copy;
        CopyRow {
            server: copy.server,
            life: copy.life,
            block: condemned.block,
            slot: condemned.slot,
            version: copy.version,
            number: condemned.number,
        }
    }

    /// The first of all rows that a copy of a slot may have.
    pub fn first(id: SlotId, copy: ChunkCopy) -> CopyRow
        ensures { result ≡ copy_key id.block id.slot copy }
    {
        CopyRow {
            server: copy.server,
            life: copy.life,
            block: id.block,
            slot: id.slot,
            version: copy.version,
            number: 0,
        }
    }

    /// How what the row is a copy of compares with that of another.
    fn place(&self, other: &CopyRow) -> Ordering
        ensures { result ≡ place_cmp self.now other.now }
    {
        self.server
            .cmp(&other.server)
            .then(self.life.cmp(&other.life))
            .then(self.block.cmp(&other.block))
            .then(self.slot.cmp(&other.slot))
            .then(self.version.cmp(&other.version))
    }
}

impl Row for CopyRow {
    ghost use Rattle.qfs_blocks.specs.CopyIndex.{copy_cmp, copy_total};

    ghost cmp = { copy_cmp };

    fn cmp_row(&self, other: &Self) -> Ordering {
        self.place(other).then(self.number.cmp(&other.number))
    }

    ghost total = { copy_total };
}

impl Key<CopyRow> for CopyRow {
    ghost use Rattle.qfs_blocks.specs.CopyIndex.{copy_cmp, copy_total};
    ghost use Rattle.qfs_table.specs.KeyLaws.{whole_falls};

    ghost order = { copy_cmp };

    fn order(&self, row: &CopyRow) -> Ordering {
        self.cmp_row(row)
    }

    ghost falls = { whole_falls copy_total };
}

impl WholeKey<CopyRow> for CopyRow {
    ghost use Rattle.qfs_blocks.specs.CopyIndex.{copy_total};
    ghost use Rattle.qfs_table.specs.KeyLaws.{whole_alone};

    ghost alone = { whole_alone copy_total };
}

/// What rows are copies of, under any number.
#[derive(Drop)]
pub struct OfCopy {
    pub row: CopyRow,
}

impl Key<CopyRow> for OfCopy {
    ghost use Rattle.qfs_blocks.specs.CopyIndex.{place_cmp, place_falls};

    ghost order = { λ key. place_cmp key.row };

    fn order(&self, row: &CopyRow) -> Ordering {
        self.row.place(row)
    }

    ghost falls = { λ key. place_falls key.row };
}

/// The copies on a server.
#[derive(Drop)]
pub struct OnServer {
    pub server: ServerId,
}

impl Key<CopyRow> for OnServer {
    ghost use Rattle.qfs_blocks.specs.CopyIndex.{server_falls, server_order};

    ghost order = { λ key. server_order key.server };

    fn order(&self, row: &CopyRow) -> Ordering {
        self.server.cmp(&row.server)
    }

    ghost falls = { λ key. server_falls key.server };
}
