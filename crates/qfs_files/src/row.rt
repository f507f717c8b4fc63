//! The rows of the two tables.

use qfs_base::listing::Listing;
use qfs_base::lists::Bytes;
use qfs_base::numbers::{ActorId, FileId};
use qfs_table::Row;
use std::cmp::Ordering;

/// What stands under a path.
#[derive(Clone, Copy)]
pub enum Holding {
    Directory,
    /// An unclosed file, by its number.
    Unclosed(FileId),
    /// A closed file: its number, and the actor and the number of the command that closed it.
    Closed(FileId, ActorId, u16),
}

/// A directory or file under the names of its path.
#[derive(Drop)]
pub struct FileRow {
    pub names: Listing<Bytes>,
    pub holding: Holding,
}

impl Row for FileRow {
    ghost use Rattle.qfs_base.specs.NameTree.{row_cmp};
    ghost use Rattle.qfs_files.specs.Rows.{row_names};
    ghost use Rattle.qfs_files.specs.Keys.{rows_total};

    ghost cmp = { row_cmp row_names };

    fn cmp_row(&self, other: &Self) -> Ordering {
        self.names.as_slice().cmp(other.names.as_slice())
    }

    ghost total = { rows_total };
}

/// A path at which an unclosed file may stand. One that stands somewhere has such a row.
#[derive(Drop)]
pub struct OpenRow {
    pub file: FileId,
    pub names: Listing<Bytes>,
}

impl Row for OpenRow {
    ghost use Rattle.qfs_files.specs.Keys.{open_cmp, open_total};

    ghost cmp = { open_cmp };

    fn cmp_row(&self, other: &Self) -> Ordering {
        let names = self.names.as_slice().cmp(other.names.as_slice());
        self.file.cmp(&other.file).then(names)
    }

    ghost total = { open_total };
}
