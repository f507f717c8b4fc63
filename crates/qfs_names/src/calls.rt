//! The calls on the tree: each tries its refusals in their order, makes room, and changes.
ghost use Rattle.std.specs.Prelude.{◌≡◌, ◌≢◌, ◌≤◌, ◌+◌, max, IfOk, OnOk, OnErr};
ghost use Rattle.qfs_base.specs.NameTree.{add_refusal, added, directory_refusal, look_refusal, names_below, renamed, rename_refusal, rmdir_refusal, taken};
ghost use Rattle.qfs_base.specs.Table.{Each};
ghost use Rattle.qfs_names.specs.Answers.{Answers, AnswersOnly};
ghost use Rattle.qfs_names.specs.Names.{row_path, at_path, standing_of, directory_at, file_at, row_at};

use crate::error::TreeError;
use crate::tree::Tree;
use qfs_base::lists::Names;
use qfs_base::numbers::FileId;
use qfs_base::path::Path;

impl Tree {
    /// Makes a directory. It isn't answered NoMemory where an entry has room.
    pub fn mkdir(&mut self, path: Path) -> Result<(), TreeError>
        ensures answer { Answers (add_refusal (standing_of self.old.rows) path) result }
        ensures room { 1 ≤ self.old.spare → AnswersOnly (add_refusal (standing_of self.old.rows) path) result }
        ensures rows { OnOk result (self.new.rows ≡ added row_path (directory_at path) self.old.rows) }
        ensures spare { OnOk result (self.new.spare + 1 ≡ max self.old.spare 1) }
        ensures err { OnErr result (self.new ≡ self.old) }
    {
        if let Some(refusal) = self.add_refusal(&path) {
            return Err(TreeError::Refused(refusal));
        }
        self.make_room(1)?;
        self.put_directory(path);
        Ok(())
    }

    /// Takes an empty directory away.
    pub fn rmdir(&mut self, path: &Path) -> Result<(), TreeError>
        ensures answer { AnswersOnly (rmdir_refusal (standing_of self.old.rows) path.now) result }
        ensures rows { OnOk result (self.new.rows ≡ taken row_path path.now self.old.rows) }
        ensures spare { self.new.spare ≡ self.old.spare }
        ensures err { OnErr result (self.new ≡ self.old) }
    {
        if let Some(refusal) = self.rmdir_refusal(path) {
            return Err(TreeError::Refused(refusal));
        }
        self.take_directory(path);
        Ok(())
    }

    /// Makes an unclosed file, under a number that no file of the tree has. It takes the memory of
    /// one copy of the path, whatever the spare.
    pub fn add(&mut self, path: Path, file: FileId) -> Result<(), TreeError>
        requires some { 1 ≤ file }
        requires fresh { Each (λ row. row.file ≢ file) self.old.rows }
        ensures answer { Answers (add_refusal (standing_of self.old.rows) path) result }
        ensures rows { OnOk result (self.new.rows ≡ added row_path (file_at path file) self.old.rows) }
        ensures spare { OnOk result (self.new.spare + 1 ≡ max self.old.spare 1) }
        ensures err { OnErr result (self.new ≡ self.old) }
    {
        if let Some(refusal) = self.add_refusal(&path) {
            return Err(TreeError::Refused(refusal));
        }
        let again = self.copy(&path)?;
        self.make_room(1)?;
        self.put_file(path, again, file);
        Ok(())
    }

    /// Takes a closed file away, and gives its number.
    pub fn remove(&mut self, path: &Path) -> Result<FileId, TreeError>
        ensures answer { AnswersOnly (look_refusal (standing_of self.old.rows) path.now) result }
        ensures file { IfOk result (λ file. file ≡ (row_at self.old.rows path.now).file) }
        ensures rows { OnOk result (self.new.rows ≡ taken row_path path.now self.old.rows) }
        ensures spare { self.new.spare ≡ self.old.spare }
        ensures err { OnErr result (self.new ≡ self.old) }
    {
        match self.look_refusal(path) {
            Some(refusal) => Err(TreeError::Refused(refusal)),
            None => Ok(self.take_closed(path)),
        }
    }

    /// Moves a file or directory, with everything below it. It takes the memory of the paths that
    /// it makes, whatever the spare, which stays.
    pub fn rename(&mut self, from: &Path, to: Path) -> Result<(), TreeError>
        ensures answer { Answers (rename_refusal (standing_of self.old.rows) from.now to) result }
        ensures rows { OnOk result
            (self.new.rows ≡ renamed row_path at_path from.now to self.old.rows) }
        ensures spare { self.new.spare ≡ self.old.spare }
        ensures err { OnErr result (self.new ≡ self.old) }
    {
        if let Some(refusal) = self.rename_refusal(from, &to) {
            return Err(TreeError::Refused(refusal));
        }
        let moved = self.moved(from, &to)?;
        self.add_room(moved.len())?;
        self.put_moved(from, &to, moved);
        Ok(())
    }

    /// The number of a closed file. It takes no memory.
    pub fn look(&self, path: &Path) -> Result<FileId, TreeError>
        ensures answer { AnswersOnly (look_refusal (standing_of self.now.rows) path.now) result }
        ensures file { IfOk result (λ file. file ≡ (row_at self.now.rows path.now).file) }
    {
        if let Some(refusal) = self.look_refusal(path) {
            return Err(TreeError::Refused(refusal));
        }
        Ok(self.file_at(path))
    }

    /// The names right below a directory, in the order of their bytes.
    pub fn list(&self, path: &Path) -> Result<Names, TreeError>
        ensures answer { Answers (directory_refusal (standing_of self.now.rows) path.now) result }
        ensures names { IfOk result (λ names. names ≡ names_below (standing_of self.now.rows) path.now) }
    {
        if let Some(refusal) = self.directory_refusal(path) {
            return Err(TreeError::Refused(refusal));
        }
        let names = self.names_below(path)?;
        Ok(names)
    }
}
