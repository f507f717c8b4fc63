//! What making a file changes.
ghost use Rattle.std.specs.Prelude.{◌≡◌, ◌+◌, ◌<◌, ◌^◌, IfOk, OnOk, OnErr};
ghost use Rattle.qfs_base.specs.NameTree.{row_cmp};
ghost use Rattle.qfs_base.specs.Table.{IsRising};
ghost use Rattle.qfs_model_meta.specs.Apply.{apply};
ghost use Rattle.qfs_base.specs.declared.change.Change.TheVariants.{AddFile};
ghost use Rattle.qfs_model_meta.specs.TreeRows.{row_path};

use crate::rows::{Key, place};
use qfs_base::history::Entry;
use qfs_base::image::{MetaImage, TreeRow};
use qfs_base::numbers::ActorId;
use qfs_base::path::Path;
use std::alloc::AllocError;
use std::cmp::Ordering;

impl Key<TreeRow> for TreeRow {
    ghost use Rattle.qfs_base.specs.NameTree.{row_cmp};
    ghost use Rattle.qfs_model_meta.specs.TreeRows.{row_path};

    ghost order = { row_cmp row_path };

    fn order(&self, row: &TreeRow) -> Ordering {
        self.path.cmp(&row.path)
    }
}

/// The same path once more.
pub fn copy_path(path: &Path) -> Result<Path, AllocError>
    ensures { IfOk result (λ copy. copy ≡ path.now) }
{
    path.clone()
}

/// Makes an unclosed file of `len` bytes for an actor's command. On want of memory the state
/// stays.
pub fn add_file(
    image: &mut MetaImage,
    path: &Path,
    actor: ActorId,
    command: u16,
    len: u32,
) -> Result<(), AllocError>
    requires order { IsRising (row_cmp row_path) image.old.tree }
    requires number { image.old.next_file + 1 < 2 ^ 32 }
    ensures ok { OnOk result (image.new ≡ apply image.old (AddFile path.now actor command len)) }
    ensures err { OnErr result (image.new ≡ image.old) }
{
    let file = image.next_file;
    let entries = image.history.len();
    let row = TreeRow {
        path: copy_path(path)?,
        file,
        closed: false,
        actor,
        command,
        len,
    };
    image.history.push(Entry::Created(file, copy_path(path)?))?;
    if let Err(error) = place(&mut image.tree, row) {
        image.history.truncate(entries);
        return Err(error);
    }
    image.next_file = file + 1;
    Ok(())
}
