//! The changes of the namespace. Each takes no memory and can't fail: what it needs is tested and
//! reserved before, and its entry of the history is made before.
ghost use Rattle.std.specs.Prelude.{◌≡◌, ◌≤◌, ◌<◌, ◌+◌, length, None, IsSome, ℕ};
ghost use Rattle.qfs_base.specs.declared.history.Entry.TheVariants as Wrote;
ghost use Rattle.qfs_base.specs.NameTree.{add_refusal, look_refusal, rename_refusal, rmdir_refusal};
ghost use Rattle.qfs_base.specs.Sizes.{LAST_U32};
ghost use Rattle.qfs_model_meta.specs.TreeRows.{add_row, close_file, directory_row, file_row, move_path, row_at, standing, take_file, take_path, unclosed_file};
ghost use Rattle.qfs_namespace.specs.Namespaces.{IsMoved, IsRecorded};

use crate::file::{ByFile, KnownFile};
use crate::namespace::Namespace;
use qfs_base::history::Entry;
use qfs_base::numbers::{ActorId, FileId};
use qfs_base::path::Path;
use qfs_names::Moved;

impl Namespace {
    /// A directory is made.
    pub fn add_directory(&mut self, path: Path, entry: Entry)
        requires free { add_refusal (standing self.old.tree) path ≡ None }
        requires entry { entry ≡ Wrote.Mkdir path }
        requires room { 1 ≤ self.old.spare }
        requires entries { 1 ≤ self.old.spare_entries }
        ensures written { IsRecorded entry (add_row (directory_row path) self.old.tree) 1 self.old self.new }
        ensures next_file { self.new.next_file ≡ self.old.next_file }
    {
        self.tree.put_directory(path);
        self.history.push_reserved(entry);
        self.spare -= 1;
    }

    /// An empty directory is taken away.
    pub fn take_directory(&mut self, path: &Path, entry: Entry)
        requires empty { rmdir_refusal (standing self.old.tree) path.now ≡ None }
        requires entry { entry ≡ Wrote.Rmdir path.now }
        requires entries { 1 ≤ self.old.spare_entries }
        ensures written { IsRecorded entry (take_path path.now self.old.tree) 0 self.old self.new }
        ensures next_file { self.new.next_file ≡ self.old.next_file }
    {
        self.tree.form_tree();
        self.tree.take_directory(path);
        self.history.push_reserved(entry);
    }

    /// A file is made, of so many bytes, that this command of this actor writes. It isn't closed
    /// yet. `again` is a copy of its path. Its number is given, and the next one rises.
    pub fn add_file(
        &mut self,
        path: Path,
        again: Path,
        actor: ActorId,
        command: u16,
        len: u32,
        entry: Entry,
    ) -> FileId
        requires free { add_refusal (standing self.old.tree) path ≡ None }
        requires copy { again ≡ path }
        requires entry { entry ≡ Wrote.Created self.old.next_file path }
        requires room { 1 ≤ self.old.spare }
        requires entries { 1 ≤ self.old.spare_entries }
        requires number { self.old.next_file < LAST_U32 }
        ensures file { result ≡ self.old.next_file }
        ensures next_file { self.new.next_file ≡ self.old.next_file + 1 }
        ensures written { IsRecorded entry
            (add_row (file_row path self.old.next_file actor command len) self.old.tree) 1
            self.old self.new }
    {
        let file = self.next_file;
        self.tree.put_file(path, again, file);
        self.files.insert(KnownFile {
            file,
            actor,
            command,
            len,
        });
        self.history.push_reserved(entry);
        self.next_file += 1;
        self.spare -= 1;
        file
    }

    /// An unclosed file is closed, by the command of its actor.
    pub fn close_file(&mut self, file: FileId, actor: ActorId, command: u16, entry: Entry)
        requires unclosed { IsSome (unclosed_file actor file self.old.tree) }
        requires entry { entry ≡ Wrote.Closed file actor command }
        requires entries { 1 ≤ self.old.spare_entries }
        ensures written { IsRecorded entry (close_file file self.old.tree) 0 self.old self.new }
        ensures next_file { self.new.next_file ≡ self.old.next_file }
    {
        self.tree.form_tree();
        self.tree.close(file);
        self.history.push_reserved(entry);
    }

    /// An unclosed file of an actor is given up.
    pub fn abort_file(&mut self, file: FileId, entry: Entry)
        requires unclosed { (actor : ℕ) × IsSome (unclosed_file actor file self.old.tree) }
        requires entry { entry ≡ Wrote.Aborted file }
        requires entries { 1 ≤ self.old.spare_entries }
        ensures written { IsRecorded entry (take_file file self.old.tree) 0 self.old self.new }
        ensures next_file { self.new.next_file ≡ self.old.next_file }
    {
        self.tree.form_tree();
        self.tree.take(file);
        self.files.remove(&ByFile { file });
        self.history.push_reserved(entry);
    }

    /// A closed file is taken away.
    pub fn remove_file(&mut self, path: &Path, entry: Entry)
        requires closed { look_refusal (standing self.old.tree) path.now ≡ None }
        requires entry { entry ≡ Wrote.Removed path.now }
        requires entries { 1 ≤ self.old.spare_entries }
        ensures written { IsRecorded entry (take_path path.now self.old.tree) 0 self.old self.new }
        ensures next_file { self.new.next_file ≡ self.old.next_file }
    {
        self.tree.form_tree();
        let file = self.tree.take_closed(path);
        self.files.remove(&ByFile { file });
        self.history.push_reserved(entry);
    }

    /// What lies within a path is moved to another. The plan of that was made by `moved`.
    pub fn move_path(&mut self, from: &Path, to: &Path, moved: Moved, entry: Entry)
        requires free { rename_refusal (standing self.old.tree) from.now to.now ≡ None }
        requires plan { IsMoved from.now to.now self.old.tree moved }
        requires entry { entry ≡ Wrote.Renamed from.now to.now }
        requires room { length moved.rows.items ≤ self.old.spare }
        requires entries { 1 ≤ self.old.spare_entries }
        ensures written { IsRecorded entry (move_path from.now to.now self.old.tree)
            (length moved.rows.items) self.old self.new }
        ensures next_file { self.new.next_file ≡ self.old.next_file }
    {
        let _names = &to.names;
        self.tree.form_tree();
        self.spare -= moved.len();
        self.tree.put_moved(from, to, moved);
        self.history.push_reserved(entry);
    }
}
