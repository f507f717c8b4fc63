//! The rows of the two tables.
ghost use Rattle.std.specs.Prelude.{◌≡◌, [], unwrap_or};
ghost use Rattle.qfs_base.specs.Path.{IsPath};
ghost use Rattle.qfs_names.specs.Names.{directory_at, file_at};

use qfs_base::numbers::FileId;
use qfs_base::path::Path;
use qfs_table::Row;
use std::cmp::Ordering;

/// A directory or file under its path. A directory has file 0 and isn't closed.
#[derive(Drop)]
pub struct NameRow {
    pub path: Path,
    pub file: FileId,
    pub closed: bool,
}

impl Row for NameRow {
    ghost use Rattle.qfs_base.specs.NameTree.{row_cmp};
    ghost use Rattle.qfs_names.specs.Names.{row_path};
    ghost use Rattle.qfs_names.specs.PathLaws.{rows_total};

    ghost cmp = { row_cmp row_path };

    fn cmp_row(&self, other: &Self) -> Ordering {
        let path = &self.path;
        let other = &other.path;
        path.names.as_slice().cmp(other.names.as_slice())
    }

    ghost total = { rows_total };
}

/// The row of a new entry: a directory where the file is 0, or else an unclosed file.
pub fn new_row(path: Path, file: FileId) -> NameRow
    ensures row { result ≡ file_at path file }
    ensures path { IsPath path }
{
    let _names = &path.names;
    NameRow {
        path,
        file,
        closed: false,
    }
}

/// The file of a row that was taken out, or 0 where there was none.
pub fn file_of(row: Option<NameRow>) -> FileId
    ensures { result ≡ (unwrap_or row (directory_at [])).file }
{
    match row {
        Some(row) => row.file,
        None => 0,
    }
}

/// An unclosed file, with the path at which it stands.
#[derive(Drop)]
pub struct UnclosedRow {
    pub file: FileId,
    pub path: Path,
}

impl Row for UnclosedRow {
    ghost use Rattle.std.specs.Ordering.{nat_cmp};
    ghost use Rattle.std.specs.Cmp.{nat_cmp_total, on_total};
    ghost use Rattle.qfs_names.specs.declared.row.UnclosedRow.{UnclosedRow};

    ghost cmp = { λ a b. nat_cmp a.file b.file };

    fn cmp_row(&self, other: &Self) -> Ordering {
        self.file.cmp(&other.file)
    }

    ghost total = { on_total (λ (row : UnclosedRow). row.file) nat_cmp_total };
}
