//! The namespace, and the room that it keeps for changes.
ghost use Rattle.std.specs.Prelude.{◌≡◌, ◌≤◌, [], max, IsOk, OnOk, OnErr};

use crate::file::KnownFile;
use qfs_base::history::Entry;
use qfs_base::numbers::FileId;
use qfs_base::reserved::ReservedList;
use qfs_names::Tree;
use qfs_table::Table;
use std::alloc::{AllocError, Global};
use std::marker::Model;

/// The name tree with what is known of its files, and the file history. Contracts see the rows of
/// the tree as an image has them, the number that the next file gets, the history, and the room.
#[derive(Drop)]
pub struct Namespace {
    pub(crate) tree: Tree,
    pub(crate) files: Table<KnownFile>,
    pub(crate) history: ReservedList<Entry>,
    pub(crate) next_file: FileId,
    pub(crate) spare: usize,
}

impl Model for Namespace {
    ghost use Rattle.std.specs.Prelude.{◌≤◌};
    ghost use Rattle.qfs_namespace.specs.Joined.{joined};
    ghost use Rattle.qfs_namespace.specs.Namespaces.{Namespace, IsTied, HasSpare};

    ghost Value = { Namespace };

    ghost view = { λ it. record {
      tree = joined it.files.rows it.tree.rows;
      next_file = it.next_file;
      history = it.history.items;
      spare = it.spare;
      spare_entries = it.history.spare;
    } };

    ghost invariant = { λ it. IsTied it.tree.rows it.files.rows it.next_file
        × HasSpare it.spare it.tree.spare it.files.spare };
}

impl Namespace {
    /// The namespace in which nothing stands but the root, which takes no memory. The first file
    /// gets the number 1.
    pub fn new(alloc: Global) -> Namespace
        ensures tree { result.tree ≡ [] }
        ensures next_file { result.next_file ≡ 1 }
        ensures history { result.history ≡ [] }
    {
        Namespace {
            tree: Tree::new(alloc),
            files: Table::new(alloc),
            history: ReservedList::new(alloc),
            next_file: 1,
            spare: 0,
        }
    }

    /// Makes room for so many directories and files, those that have room already included. On
    /// want of memory all stays as it was.
    pub fn reserve(&mut self, entries: u32) -> Result<(), AllocError>
        ensures tree { self.new.tree ≡ self.old.tree }
        ensures next_file { self.new.next_file ≡ self.old.next_file }
        ensures history { self.new.history ≡ self.old.history }
        ensures spare_entries { self.new.spare_entries ≡ self.old.spare_entries }
        ensures ok { OnOk result (self.new.spare ≡ max self.old.spare entries) }
        ensures enough { entries ≤ self.old.spare → IsOk result }
        ensures err { OnErr result (self.new ≡ self.old) }
    {
        let wanted = entries as usize;
        if wanted <= self.spare {
            return Ok(());
        }
        self.tree.reserve(entries)?;
        self.files.reserve(wanted)?;
        self.spare = wanted;
        Ok(())
    }

    /// Makes room for so many entries of the history beside those that are there. On want of
    /// memory all stays as it was.
    pub fn reserve_entries(&mut self, more: usize) -> Result<(), AllocError>
        ensures tree { self.new.tree ≡ self.old.tree }
        ensures next_file { self.new.next_file ≡ self.old.next_file }
        ensures history { self.new.history ≡ self.old.history }
        ensures spare { self.new.spare ≡ self.old.spare }
        ensures least { self.old.spare_entries ≤ self.new.spare_entries }
        ensures ok { OnOk result (more ≤ self.new.spare_entries) }
        ensures enough { more ≤ self.old.spare_entries → IsOk result }
        ensures err { OnErr result (self.new ≡ self.old) }
    {
        self.history.reserve(more)
    }
}
