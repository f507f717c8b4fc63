//! What rows are found by, and the one change of a row in its place.
use crate::row::{NameRow, UnclosedRow};
use qfs_base::lists::Bytes;
use qfs_base::numbers::FileId;
use qfs_table::{Change, Key, WholeKey};
use std::cmp::Ordering;

/// The names of a path, at which one row stands at most.
#[derive(Drop)]
pub struct AtPath<'a> {
    pub names: &'a [Bytes],
}

impl<'a> Key<NameRow> for AtPath<'a> {
    ghost use Rattle.qfs_base.specs.NameTree.{path_cmp};
    ghost use Rattle.qfs_names.specs.PathLaws.{paths_total};
    ghost use Rattle.qfs_table.specs.KeyLaws.{whole_falls};

    ghost order = { λ key row. path_cmp key.names.now row.path };

    fn order(&self, row: &NameRow) -> Ordering {
        let path = &row.path;
        self.names.cmp(path.names.as_slice())
    }

    ghost falls = { λ key a b less. whole_falls paths_total key.names.now a.path b.path less };
}

impl<'a> WholeKey<NameRow> for AtPath<'a> {
    ghost use Rattle.qfs_names.specs.PathLaws.{paths_total};
    ghost use Rattle.qfs_table.specs.KeyLaws.{whole_alone};

    ghost alone = { λ key a b less same. whole_alone paths_total key.names.now a.path b.path less same };
}

/// The names of a path, within which the rows at it and below it stand, next to each other.
#[derive(Drop)]
pub struct WithinPath<'a> {
    pub names: &'a [Bytes],
}

impl<'a> Key<NameRow> for WithinPath<'a> {
    ghost use Rattle.qfs_names.specs.Names.{within_order};
    ghost use Rattle.qfs_names.specs.PathLaws.{within_falls};

    ghost order = { λ key row. within_order key.names.now row.path };

    fn order(&self, row: &NameRow) -> Ordering {
        let path = &row.path;
        let names = path.names.as_slice();
        let depth = self.names.len().min(names.len());
        self.names.cmp(&names[..depth])
    }

    ghost falls = { λ key a b less. within_falls key.names.now a.path b.path less };
}

/// The number of an unclosed file.
#[derive(Drop)]
pub struct ByFile {
    pub file: FileId,
}

impl Key<UnclosedRow> for ByFile {
    ghost use Rattle.std.specs.Ordering.{nat_cmp};
    ghost use Rattle.std.specs.Cmp.{nat_cmp_total};
    ghost use Rattle.qfs_table.specs.KeyLaws.{whole_falls};

    ghost order = { λ key row. nat_cmp key.file row.file };

    fn order(&self, row: &UnclosedRow) -> Ordering {
        self.file.cmp(&row.file)
    }

    ghost falls = { λ key a b less. whole_falls nat_cmp_total key.file a.file b.file less };
}

impl WholeKey<UnclosedRow> for ByFile {
    ghost use Rattle.std.specs.Cmp.{nat_cmp_total};
    ghost use Rattle.qfs_table.specs.KeyLaws.{whole_alone};

    ghost alone = { λ key a b less same. whole_alone nat_cmp_total key.file a.file b.file less same };
}

/// A file is closed.
#[derive(Drop)]
pub struct Close;

impl Change<NameRow> for Close {
    ghost use Rattle.std.specs.Prelude.{refl};
    ghost use Rattle.qfs_names.specs.Names.{closed_row};

    ghost changed = { λ _ row. closed_row row };

    fn change(&self, row: &mut NameRow) {
        row.closed = true;
    }

    ghost keeps_key = { λ _ a b. refl };
}
