//! What is known of a file, by its number.
ghost use Rattle.std.specs.Prelude.{◌≡◌};
ghost use Rattle.qfs_namespace.specs.Joined.{is_known_as};

use qfs_base::numbers::{ActorId, FileId};
use qfs_table::{Key, Row, WholeKey};
use std::cmp::Ordering;

/// A file: the command that made it, and its length in bytes.
#[derive(Clone, Copy, Drop)]
pub struct KnownFile {
    /// At least 1.
    pub file: FileId,
    pub actor: ActorId,
    pub command: u16,
    pub len: u32,
}

impl Row for KnownFile {
    ghost use Rattle.std.specs.Cmp.{nat_cmp_total, on_total};
    ghost use Rattle.qfs_namespace.specs.declared.file.KnownFile.{KnownFile};
    ghost use Rattle.qfs_namespace.specs.Joined.{known_cmp};

    ghost cmp = { known_cmp };

    fn cmp_row(&self, other: &Self) -> Ordering {
        self.file.cmp(&other.file)
    }

    ghost total = { on_total (λ (row : KnownFile). row.file) nat_cmp_total };
}

/// The number of a file as a key.
#[derive(Drop)]
pub struct ByFile {
    pub file: FileId,
}

impl Key<KnownFile> for ByFile {
    ghost use Rattle.std.specs.Cmp.{nat_cmp_total};
    ghost use Rattle.qfs_namespace.specs.Joined.{known_order};
    ghost use Rattle.qfs_table.specs.KeyLaws.{whole_falls};

    ghost order = { λ key row. known_order key.file row };

    fn order(&self, row: &KnownFile) -> Ordering {
        self.file.cmp(&row.file)
    }

    ghost falls = { λ key a b less. whole_falls nat_cmp_total key.file a.file b.file less };
}

impl WholeKey<KnownFile> for ByFile {
    ghost use Rattle.std.specs.Cmp.{nat_cmp_total};
    ghost use Rattle.qfs_table.specs.KeyLaws.{whole_alone};

    ghost alone = { λ key a b less same. whole_alone nat_cmp_total key.file a.file b.file less same };
}
