//! What rows are found by, and the change of a row in its place.

ghost use Rattle.std.specs.Prelude.{◌≡◌};
ghost use Rattle.qfs_files.specs.Rows.{is_unclosed_row};

use crate::row::{FileRow, Holding, OpenRow};
use qfs_base::lists::Bytes;
use qfs_base::numbers::{ActorId, FileId};
use qfs_table::{Change, Key, WholeKey};
use std::cmp::Ordering;

/// The names of a path, at which one row stands at most.
#[derive(Drop)]
pub struct AtPath<'a> {
    pub names: &'a [Bytes],
}

impl<'a> Key<FileRow> for AtPath<'a> {
    ghost use Rattle.qfs_base.specs.NameTree.{path_cmp};
    ghost use Rattle.qfs_files.specs.Keys.{paths_total};
    ghost use Rattle.qfs_table.specs.KeyLaws.{whole_falls};

    ghost order = { λ key row. path_cmp key.names.now row.names };

    fn order(&self, row: &FileRow) -> Ordering {
        self.names.cmp(row.names.as_slice())
    }

    ghost falls = { λ key a b less. whole_falls paths_total key.names.now a.names b.names less };
}

impl<'a> WholeKey<FileRow> for AtPath<'a> {
    ghost use Rattle.qfs_files.specs.Keys.{paths_total};
    ghost use Rattle.qfs_table.specs.KeyLaws.{whole_alone};

    ghost alone = { λ key a b less same. whole_alone paths_total key.names.now a.names b.names less same };
}

/// The names of a path, within which the rows at it and below it stand, next to each other.
#[derive(Drop)]
pub struct WithinPath<'a> {
    pub names: &'a [Bytes],
}

impl<'a> Key<FileRow> for WithinPath<'a> {
    ghost use Rattle.qfs_files.specs.Keys.{within_order, within_falls};

    ghost order = { λ key row. within_order key.names.now row.names };

    fn order(&self, row: &FileRow) -> Ordering {
        let names = row.names.as_slice();
        let depth = self.names.len().min(names.len());
        self.names.cmp(&names[..depth])
    }

    ghost falls = { λ key a b less. within_falls key.names.now a.names b.names less };
}

/// The unclosed file at a path, if it is still there.
impl Key<FileRow> for OpenRow {
    ghost use Rattle.qfs_files.specs.Keys.{open_order, open_falls};

    ghost order = { open_order };

    fn order(&self, row: &FileRow) -> Ordering {
        let own = if is_unclosed(self.file, row) {
            Ordering::Equal
        } else {
            Ordering::Less
        };
        self.names.as_slice().cmp(row.names.as_slice()).then(own)
    }

    ghost falls = { open_falls };
}

impl WholeKey<FileRow> for OpenRow {
    ghost use Rattle.qfs_files.specs.Keys.{open_alone};

    ghost alone = { open_alone };
}

/// Whether a row is that of this file, and the file isn't closed.
fn is_unclosed(file: FileId, row: &FileRow) -> bool
    ensures { result ≡ is_unclosed_row file row.now }
{
    match row.holding {
        Holding::Unclosed(number) => number == file,
        Holding::Directory | Holding::Closed(_, _, _) => false,
    }
}

/// The number of an unclosed file, of which several rows may say where it stands.
#[derive(Drop)]
pub struct ByFile {
    pub file: FileId,
}

impl Key<OpenRow> for ByFile {
    ghost use Rattle.qfs_files.specs.Keys.{file_order, file_falls};

    ghost order = { λ key. file_order key.file };

    fn order(&self, row: &OpenRow) -> Ordering {
        self.file.cmp(&row.file)
    }

    ghost falls = { λ key. file_falls key.file };
}

/// A file is closed by a command of an actor.
#[derive(Drop)]
pub struct Close {
    pub file: FileId,
    pub actor: ActorId,
    pub command: u16,
}

impl Change<FileRow> for Close {
    ghost use Rattle.std.specs.Prelude.{refl};
    ghost use Rattle.qfs_files.specs.Rows.{closed_by};

    ghost changed = { λ close row. closed_by close.file close.actor close.command row };

    fn change(&self, row: &mut FileRow) {
        row.holding = Holding::Closed(self.file, self.actor, self.command);
    }

    ghost keeps_key = { λ _ a b. refl };
}
