//! The tree, and what stands in it.
ghost use Rattle.std.specs.Prelude.{◌≡◌, ◌≤◌, ◌+◌, ◌^◌, [], filter, map, find, max, IfOk, OnOk, OnErr, IsOk};
ghost use Rattle.std.specs.Option.{option_copied, option_map};
ghost use Rattle.std.specs.Ordering.{is_lt};
ghost use Rattle.qfs_base.specs.NameTree.{is_within, kind_at, path_cmp, row_cmp, stands_at};
ghost use Rattle.qfs_base.specs.Table.{IsRising};
ghost use Rattle.qfs_names.specs.declared.row.NameRow.{NameRow};
ghost use Rattle.qfs_laws_tree.specs.Tree.{HasTree};
ghost use Rattle.qfs_names.specs.Names.{row_at, row_path, standing_of, is_open_of, within_order};
ghost use Rattle.qfs_names.specs.Trees.{as_row};

use crate::key::{AtPath, ByFile, WithinPath};
use crate::kinds::kind_at_row;
use crate::paths::copy_path;
use crate::row::{NameRow, UnclosedRow};
use qfs_base::lists::{Bytes, NameKind};
use qfs_base::numbers::FileId;
use qfs_base::path::Path;
use qfs_table::{Run, Table};
use std::alloc::{AllocError, Global};
use std::marker::Model;

/// The directories and files by path, in the order of paths, and how many more have room.
/// Contracts see both: the rows form a name tree, in which each file stands once.
#[derive(Drop)]
pub struct Tree {
    pub(crate) alloc: Global,
    pub(crate) names: Table<NameRow>,
    pub(crate) unclosed: Table<UnclosedRow>,
    pub(crate) spare: usize,
}

impl Model for Tree {
    ghost use Rattle.qfs_names.specs.Trees.{Contents, IsNames};

    ghost Value = { Contents };

    ghost view = { λ it. record { rows = it.names.rows; spare = it.spare } };

    ghost invariant = { λ it. IsNames it.names it.unclosed it.spare };
}

impl Tree {
    /// The tree in which nothing stands but the root. It takes no memory.
    pub fn new(alloc: Global) -> Tree
        ensures rows { result.rows ≡ [] }
        ensures spare { result.spare ≡ 0 }
    {
        Tree {
            alloc,
            names: Table::new(alloc),
            unclosed: Table::new(alloc),
            spare: 0,
        }
    }

    /// Makes room for so many entries, those that have room already included. On want of memory
    /// the tree stays.
    pub fn reserve(&mut self, entries: u32) -> Result<(), AllocError>
        ensures rows { self.new.rows ≡ self.old.rows }
        ensures ok { OnOk result (self.new.spare ≡ max self.old.spare entries) }
        ensures enough { entries ≤ self.old.spare → IsOk result }
        ensures err { OnErr result (self.new ≡ self.old) }
    {
        self.make_room(entries as usize)
    }

    /// Makes room for so many entries, as `reserve` does.
    pub(crate) fn make_room(&mut self, entries: usize) -> Result<(), AllocError>
        ensures rows { self.new.rows ≡ self.old.rows }
        ensures ok { OnOk result (self.new.spare ≡ max self.old.spare entries) }
        ensures enough { entries ≤ self.old.spare → IsOk result }
        ensures err { OnErr result (self.new ≡ self.old) }
    {
        if entries <= self.spare {
            return Ok(());
        }
        self.unclosed.reserve(entries)?;
        self.names.reserve(entries)?;
        self.spare = entries;
        Ok(())
    }

    /// Makes room for so many entries beside those that have room already. On want of memory the
    /// tree stays.
    pub(crate) fn add_room(&mut self, more: usize) -> Result<(), AllocError>
        ensures rows { self.new.rows ≡ self.old.rows }
        ensures ok { OnOk result (self.new.spare ≡ self.old.spare + more) }
        ensures err { OnErr result (self.new ≡ self.old) }
    {
        match self.spare.checked_add(more) {
            Some(entries) => self.make_room(entries),
            None => Err(AllocError),
        }
    }

    /// A copy of a path.
    pub(crate) fn copy(&self, path: &Path) -> Result<Path, AllocError>
        ensures { IfOk result (λ copy. copy ≡ path.now) }
    {
        copy_path(self.alloc, path)
    }

    /// The row at a path, which isn't the root's: it has none.
    pub(crate) fn row_named(&self, names: &[Bytes]) -> Option<&NameRow>
        ensures { option_copied result ≡ find (stands_at row_path names.now) self.now.rows }
    {
        self.names.get(&AtPath { names })
    }

    /// The first row behind a path, in the order of paths.
    pub(crate) fn row_behind(&self, names: &[Bytes]) -> Option<&NameRow>
        ensures row { option_copied result
            ≡ find (λ (row : NameRow). is_lt (path_cmp names.now row.path)) self.now.rows }
        ensures rising { IsRising (row_cmp row_path) self.now.rows }
    {
        self.names.next_behind(&AtPath { names })
    }

    /// The first row behind those within a path.
    pub(crate) fn row_beyond(&self, names: &[Bytes]) -> Option<&NameRow>
        ensures { option_copied result
            ≡ find (λ (row : NameRow). is_lt (within_order names.now row.path)) self.now.rows }
    {
        self.names.next_behind(&WithinPath { names })
    }

    /// The rows within a path: the one at it, and those below it.
    pub(crate) fn rows_within(&self, names: &[Bytes]) -> Run<'_, NameRow>
        ensures { result ≡ filter (λ (row : NameRow). is_within names.now row.path) self.now.rows }
    {
        self.names.run(&WithinPath { names })
    }

    /// What stands under a path, if anything does: the root is a directory.
    #[tactic(auto, using(crate::proofs::TreeLaws::kind_at_filled), unfolding(qfs_base::specs::NameTree::kind_at))]
    pub(crate) fn kind_at(&self, names: &[Bytes]) -> Option<NameKind>
        ensures { result ≡ kind_at (standing_of self.now.rows) names.now }
    {
        if names.is_empty() {
            return Some(NameKind::Directory);
        }
        match self.row_named(names) {
            Some(row) => Some(kind_at_row(row)),
            None => None,
        }
    }

    /// The rows form a name tree, in which each file stands once: for those who tie more to them.
    pub fn form_tree(&self)
        ensures { HasTree (2 ^ 32) (map as_row self.now.rows) }
    {
        let _names = &self.names;
    }

    /// The file at a path, or 0 where a directory or nothing stands there.
    pub fn file_at(&self, path: &Path) -> FileId
        ensures { result ≡ (row_at self.now.rows path.now).file }
    {
        match self.row_named(path.names.as_slice()) {
            Some(row) => row.file,
            None => 0,
        }
    }

    /// The path of an unclosed file, or None where no unclosed file has that number.
    pub fn unclosed_path(&self, file: FileId) -> Option<&Path>
        ensures { option_copied result
            ≡ option_map row_path (find (is_open_of file) self.now.rows) }
    {
        match self.unclosed.get(&ByFile { file }) {
            Some(row) => Some(&row.path),
            None => None,
        }
    }
}
