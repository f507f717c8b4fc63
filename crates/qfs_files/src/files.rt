//! The files that a history leaves.
ghost use Rattle.std.specs.Prelude.{◌≡◌, [], filter, find, IfOk, OnOk};
ghost use Rattle.std.specs.Option.{option_copied};
ghost use Rattle.qfs_base.specs.NameTree.{is_within, renamed, row_cmp, stands_at, taken};
ghost use Rattle.qfs_base.specs.Table.{change_where, place, place_all, without};
ghost use Rattle.qfs_files.specs.Rows.{at_names, closed_by, is_unclosed_row, row_holding, row_names, rows_after, rows_of};

use crate::changes::{close_rows, keep_open, moved_rows, take_rows};
use crate::key::{AtPath, ByFile, Close, WithinPath};
use crate::names::copy_names;
use crate::row::{FileRow, Holding, OpenRow};
use qfs_base::history::Entry;
use qfs_base::lists::Bytes;
use qfs_base::numbers::FileId;
use qfs_table::{Run, Table};
use std::alloc::{AllocError, Global};
use std::marker::Model;

/// The directories and files by path, and the paths at which unclosed files may stand, by file.
/// Contracts see the first, in the order of their paths.
#[derive(Drop)]
pub struct Files {
    pub(crate) alloc: Global,
    rows: Table<FileRow>,
    places: Table<OpenRow>,
}

impl Model for Files {
    ghost use Rattle.std.specs.Prelude.{List};
    ghost use Rattle.qfs_files.specs.declared.row.FileRow.{FileRow};
    ghost use Rattle.qfs_files.specs.Open.{Covers};

    ghost Value = { List FileRow };

    ghost view = { λ it. it.rows.rows };

    ghost invariant = { λ it. Covers it.places.rows it.rows.rows };
}

impl Files {
    /// No files.
    fn new(alloc: Global) -> Files
        ensures { result ≡ [] }
    {
        Files {
            alloc,
            rows: Table::new(alloc),
            places: Table::new(alloc),
        }
    }

    /// Puts a row at its place, where it replaces the one at its path.
    fn put(&mut self, row: FileRow) -> Result<(), AllocError>
        ensures { OnOk result (self.new ≡ place (row_cmp row_names) row self.old) }
    {
        keep_open(self.alloc, &mut self.places, &row)?;
        self.rows.reserve(1)?;
        self.rows.insert(row);
        Ok(())
    }

    /// Puts rows at their places, one after another.
    fn put_all(&mut self, rows: Vec<FileRow>) -> Result<(), AllocError>
        ensures { OnOk result (self.new ≡ place_all (row_cmp row_names) rows.items self.old) }
    {
        for row in rows {
            self.put(row)?;
        }
        Ok(())
    }

    /// Something comes to stand at a path.
    fn add(&mut self, names: &[Bytes], holding: Holding) -> Result<(), AllocError>
        ensures { OnOk result
            (self.new ≡ place (row_cmp row_names) (row_holding names.now holding) self.old) }
    {
        let names = copy_names(self.alloc, names)?;
        self.put(FileRow { names, holding })
    }

    /// What stands at a path is taken out.
    fn take(&mut self, names: &[Bytes])
        ensures { self.new ≡ without (stands_at row_names names.now) self.old }
    {
        self.rows.remove(&AtPath { names });
    }

    /// An unclosed file is closed, wherever it stands.
    fn close(&mut self, close: &Close)
        ensures { self.new ≡ change_where (is_unclosed_row close.now.file)
            (closed_by close.now.file close.now.actor close.now.command) self.old }
    {
        let file = close.file;
        close_rows(&mut self.rows, self.places.run(&ByFile { file }), close);
    }

    /// An unclosed file is taken out, wherever it stands.
    fn give_up(&mut self, file: FileId)
        ensures { self.new ≡ without (is_unclosed_row file) self.old }
    {
        take_rows(&mut self.rows, self.places.run(&ByFile { file }));
    }

    /// The rows within a path: the one at it, and those below it.
    fn rows_within(&self, names: &[Bytes]) -> Run<'_, FileRow>
        ensures { result ≡ filter (λ (row : FileRow). is_within names.now row.names) self.now }
    {
        self.rows.run(&WithinPath { names })
    }

    /// Takes out the rows within a path.
    fn take_within(&mut self, names: &[Bytes])
        ensures { self.new ≡ without (λ (row : FileRow). is_within names.now row.names) self.old }
    {
        self.rows.remove_run(&WithinPath { names });
    }

    /// What stands at a path, and all below it, moves to another.
    fn rename(&mut self, from: &[Bytes], to: &[Bytes]) -> Result<(), AllocError>
        ensures { OnOk result (self.new ≡ renamed row_names at_names from.now to.now self.old) }
    {
        let moved = moved_rows(self.alloc, from.len(), to, self.rows_within(from))?;
        self.take_within(from);
        self.put_all(moved)
    }

    /// Goes on by one entry of the history. On want of memory the files are those of no entry.
    #[tactic(auto, unfolding(qfs_base::specs::NameTree::added, qfs_base::specs::NameTree::taken))]
    fn apply(&mut self, entry: &Entry) -> Result<(), AllocError>
        ensures { OnOk result (self.new ≡ rows_after self.old entry.now) }
    {
        match entry {
            Entry::Mkdir(path) => self.add(path.names.as_slice(), Holding::Directory),
            Entry::Created(file, path) => {
                self.add(path.names.as_slice(), Holding::Unclosed(*file))
            }
            Entry::Rmdir(path) | Entry::Removed(path) => {
                self.take(path.names.as_slice());
                Ok(())
            }
            Entry::Closed(file, actor, command) => {
                self.close(&Close {
                    file: *file,
                    actor: *actor,
                    command: *command,
                });
                Ok(())
            }
            Entry::Aborted(file) => {
                self.give_up(*file);
                Ok(())
            }
            Entry::Renamed(from, to) => self.rename(from.names.as_slice(), to.names.as_slice()),
        }
    }

    /// The row at a path.
    pub fn row_at(&self, names: &[Bytes]) -> Option<&FileRow>
        ensures { option_copied result ≡ find (stands_at row_names names.now) self.now }
    {
        self.rows.get(&AtPath { names })
    }

    /// All rows, in the order of their paths.
    pub fn rows(&self) -> Run<'_, FileRow>
        ensures { result ≡ self.now }
    {
        self.rows.iter()
    }
}

/// The files that these entries leave.
pub fn files_of(alloc: Global, entries: &[Entry]) -> Result<Files, AllocError>
    ensures { IfOk result (λ files. files ≡ rows_of entries.now) }
{
    let mut files = Files::new(alloc);
    for entry in entries {
        files.apply(entry)?;
    }
    Ok(files)
}
