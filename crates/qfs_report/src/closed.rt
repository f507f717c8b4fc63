//! The closed files of the name tree, by number.

ghost use Rattle.std.specs.Prelude.{◌≡◌, [], IfOk, OnOk, count_by, ◌==◌};
ghost use Rattle.std.specs.List.Sorted.{IsStrictlySortedBy};
ghost use Rattle.std.specs.Map.{keys_of};
ghost use Rattle.std.specs.Option.{option_copied};
ghost use Rattle.std.specs.Ordering.{nat_cmp};
ghost use Rattle.qfs_base.specs.KeyMap.{value_at};
ghost use Rattle.qfs_report.specs.AuditTables.{paths_of, closed_of, closed_with};
ghost use Rattle.qfs_base.specs.declared.image.TreeRow.{TreeRow};
ghost use Rattle.qfs_model_meta.specs.TreeRows.{is_closed_row};

use qfs_base::image::TreeRow;
use qfs_base::key_map::KeyMap;
use qfs_base::numbers::FileId;
use qfs_base::path::Path;
use std::alloc::{AllocError, Global};

/// The paths of the closed files, by number.
pub type Closed<'a> = KeyMap<FileId, &'a Path>;

/// Whether this is the row of a closed file.
#[tactic(auto, unfolding(qfs_model_meta::specs::TreeRows::is_closed_row, qfs_model_meta::specs::TreeRows::is_closed, qfs_model_meta::specs::TreeRows::kind_of))]
fn is_closed_row(row: &TreeRow) -> bool
    ensures { result ≡ is_closed_row row.now }
{
    row.closed && row.file != 0
}

/// Puts a row's file among the closed ones, if it is one.
#[tactic(auto, using(crate::proofs::Paths::paths_more), unfolding(crate::specs::AuditTables::closed_with))]
fn add_closed<'a>(closed: &mut Closed<'a>, row: &'a TreeRow) -> Result<(), AllocError>
    ensures files { OnOk result (paths_of closed.new ≡ closed_with (paths_of closed.old) row.now) }
    ensures rising { OnOk result (IsStrictlySortedBy nat_cmp (keys_of closed.old)
        → IsStrictlySortedBy nat_cmp (keys_of closed.new)) }
{
    if !is_closed_row(row) {
        return Ok(());
    }
    closed.insert(row.file, &row.path)
}

/// The closed files of the tree.
#[tactic(auto, unfolding(crate::specs::AuditTables::closed_of))]
pub fn closed_files<'a>(alloc: Global, tree: &'a [TreeRow]) -> Result<Closed<'a>, AllocError>
    ensures files { IfOk result (λ closed. paths_of closed ≡ closed_of [] tree.now) }
    ensures rising { IfOk result (λ closed. IsStrictlySortedBy nat_cmp (keys_of closed)) }
{
    let mut closed = KeyMap::new(alloc);
    for row in tree {
        add_closed(&mut closed, row)?;
    }
    Ok(closed)
}

/// The path of a closed file, if it is there.
#[tactic(auto, using(crate::proofs::Paths::paths_found))]
pub fn path_of<'a>(closed: &Closed<'a>, file: FileId) -> Option<&'a Path>
    ensures { option_copied result ≡ value_at nat_cmp (paths_of closed.now) file }
{
    match closed.get(&file) {
        Some(path) => Some(*path),
        None => None,
    }
}

/// How many closed files the tree has.
pub fn count_files(tree: &[TreeRow]) -> usize
    ensures { result ≡ count_by is_closed_row tree.now }
{
    tree.iter().filter(|row| is_closed_row(row)).count()
}

/// How many directories the tree has.
pub fn count_directories(tree: &[TreeRow]) -> usize
    ensures { result ≡ count_by (λ (row : TreeRow). row.file == 0) tree.now }
{
    tree.iter().filter(|row| row.file == 0).count()
}
