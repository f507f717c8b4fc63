//! The changes of the tree. Each takes no memory and can't fail: what it needs is tested and
//! reserved before.
ghost use Rattle.std.specs.Prelude.{◌≡◌, ◌≢◌, ◌≤◌, ◌+◌, find, None, IsSome};
ghost use Rattle.qfs_base.specs.NameTree.{add_refusal, added, look_refusal, rmdir_refusal, taken};
ghost use Rattle.qfs_base.specs.Table.{Each};
ghost use Rattle.qfs_names.specs.Names.{row_path, standing_of, directory_at, file_at, is_open_of, close_file, take_file, row_at};

use crate::key::{AtPath, ByFile, Close};
use crate::row::{UnclosedRow, file_of, new_row};
use crate::tree::Tree;
use qfs_base::numbers::FileId;
use qfs_base::path::Path;

impl Tree {
    /// A directory is made.
    pub fn put_directory(&mut self, path: Path)
        requires free { add_refusal (standing_of self.old.rows) path ≡ None }
        requires room { 1 ≤ self.old.spare }
        ensures rows { self.new.rows ≡ added row_path (directory_at path) self.old.rows }
        ensures spare { self.new.spare + 1 ≡ self.old.spare }
    {
        self.names.insert(new_row(path, 0));
        self.spare -= 1;
    }

    /// An unclosed file is made, under a number that no file of the tree has. `again` is a copy of
    /// its path.
    pub fn put_file(&mut self, path: Path, again: Path, file: FileId)
        requires free { add_refusal (standing_of self.old.rows) path ≡ None }
        requires room { 1 ≤ self.old.spare }
        requires copy { again ≡ path }
        requires some { 1 ≤ file }
        requires fresh { Each (λ row. row.file ≢ file) self.old.rows }
        ensures rows { self.new.rows ≡ added row_path (file_at path file) self.old.rows }
        ensures spare { self.new.spare + 1 ≡ self.old.spare }
    {
        self.names.insert(new_row(path, file));
        self.unclosed.insert(UnclosedRow { file, path: again });
        self.spare -= 1;
    }

    /// An unclosed file is closed.
    pub fn close(&mut self, file: FileId)
        requires { IsSome (find (is_open_of file) self.old.rows) }
        ensures rows { self.new.rows ≡ close_file file self.old.rows }
        ensures spare { self.new.spare ≡ self.old.spare }
    {
        match self.unclosed.remove(&ByFile { file }) {
            Some(row) => {
                let path = &row.path;
                let names = path.names.as_slice();
                self.names.change(&AtPath { names }, &Close);
            }
            None => unreachable!(),
        }
    }

    /// An unclosed file is taken out.
    pub fn take(&mut self, file: FileId)
        requires { IsSome (find (is_open_of file) self.old.rows) }
        ensures rows { self.new.rows ≡ take_file file self.old.rows }
        ensures spare { self.new.spare ≡ self.old.spare }
    {
        match self.unclosed.remove(&ByFile { file }) {
            Some(row) => {
                let path = &row.path;
                let names = path.names.as_slice();
                self.names.remove(&AtPath { names });
            }
            None => unreachable!(),
        }
    }

    /// An empty directory is taken out.
    pub fn take_directory(&mut self, path: &Path)
        requires { rmdir_refusal (standing_of self.old.rows) path.now ≡ None }
        ensures rows { self.new.rows ≡ taken row_path path.now self.old.rows }
        ensures spare { self.new.spare ≡ self.old.spare }
    {
        let names = path.names.as_slice();
        self.names.remove(&AtPath { names });
    }

    /// A closed file is taken out, and its number given.
    pub fn take_closed(&mut self, path: &Path) -> FileId
        requires { look_refusal (standing_of self.old.rows) path.now ≡ None }
        ensures file { result ≡ (row_at self.old.rows path.now).file }
        ensures rows { self.new.rows ≡ taken row_path path.now self.old.rows }
        ensures spare { self.new.spare ≡ self.old.spare }
    {
        let names = path.names.as_slice();
        file_of(self.names.remove(&AtPath { names }))
    }
}
