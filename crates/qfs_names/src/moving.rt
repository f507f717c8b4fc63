//! A rename: what lies within a path is planned under its new paths, and then moved.
ghost use Rattle.std.specs.Prelude.{◌≡◌, ◌+◌, ◌≤◌, ◌++◌, drop, length, map, IfOk};
ghost use Rattle.qfs_base.specs.NameTree.{renamed, rename_refusal};
ghost use Rattle.qfs_base.specs.Table.{Each};
ghost use Rattle.qfs_names.specs.declared.row.NameRow.{NameRow};
ghost use Rattle.qfs_names.specs.Names.{row_path, at_path, standing_of};
ghost use Rattle.qfs_names.specs.Moves.{CanMove, IsMove};

use crate::fill::{open_paths, place_all};
use crate::key::WithinPath;
use crate::paths::moved_path;
use crate::row::{NameRow, UnclosedRow};
use crate::tree::Tree;
use qfs_base::path::Path;
use qfs_table::Run;
use std::alloc::{AllocError, Global};

/// What lies within a path, under its new paths: the rows, and the unclosed ones once more.
#[derive(Drop)]
pub struct Moved {
    pub(crate) rows: Vec<NameRow>,
    pub(crate) paths: Vec<UnclosedRow>,
}

impl Moved {
    /// How many entries are moved.
    pub fn len(&self) -> usize
        ensures { result ≡ length self.now.rows.items }
    {
        self.rows.len()
    }
}

/// These rows, whose first `depth` names are `to` from then on.
fn moved_rows(
    alloc: Global,
    depth: usize,
    to: &Path,
    rows: Run<'_, NameRow>,
) -> Result<Vec<NameRow>, AllocError>
    requires { Each (CanMove depth to.now) rows }
    ensures { IfOk result (λ then. then.items
        ≡ map (λ (row : NameRow). at_path (to.now ++ drop depth row.path) row) rows.entry) }
{
    let mut then = Vec::new(alloc);
    for row in rows {
        let path = moved_path(alloc, depth, to, &row.path)?;
        then.push(NameRow {
            path,
            file: row.file,
            closed: row.closed,
        })?;
    }
    Ok(then)
}

impl Tree {
    /// What lies within a path, as a rename puts it.
    pub fn moved(&self, from: &Path, to: &Path) -> Result<Moved, AllocError>
        requires { rename_refusal (standing_of self.now.rows) from.now to.now ≡ None }
        ensures { IfOk result (IsMove from.now to.now self.now.rows) }
    {
        let depth = from.names.len();
        let within = self.rows_within(from.names.as_slice());
        let rows = moved_rows(self.alloc, depth, to, within)?;
        let paths = open_paths(self.alloc, rows.as_slice())?;
        Ok(Moved { rows, paths })
    }

    /// A file or directory is moved, with everything below it. The room that its rows take is the
    /// tree's spare one.
    pub fn put_moved(&mut self, from: &Path, to: &Path, moved: Moved)
        requires free { rename_refusal (standing_of self.old.rows) from.now to.now ≡ None }
        requires plan { IsMove from.now to.now self.old.rows moved }
        requires room { length moved.rows.items ≤ self.old.spare }
        ensures rows { self.new.rows ≡ renamed row_path at_path from.now to.now self.old.rows }
        ensures spare { self.new.spare + length moved.rows.items ≡ self.old.spare }
    {
        let _names = &to.names;
        let Moved { rows, paths } = moved;
        self.spare -= rows.len();
        self.names.remove_run(&WithinPath {
            names: from.names.as_slice(),
        });
        place_all(&mut self.names, rows);
        place_all(&mut self.unclosed, paths);
    }
}
