//! The changes of directories and files. Each takes no memory and can't fail: what stands in its
//! way is tested, and its room reserved, before.
ghost use Rattle.std.specs.Prelude.{◌≡◌, fold};
ghost use Rattle.qfs_base.specs.declared.change.Change.TheVariants as Made;
ghost use Rattle.qfs_base.specs.declared.image.SlotRow.{SlotRow};
ghost use Rattle.qfs_model_meta.specs.Apply.{apply};
ghost use Rattle.qfs_model_meta.specs.Slots.{slots_of};
ghost use Rattle.qfs_place.specs.Loads.{uncount_live, uncount_row};
ghost use Rattle.qfs_state.specs.declared.prepared.Prepared.TheVariants as Is;
ghost use Rattle.qfs_state.specs.Planning.{MayMake};
ghost use Rattle.qfs_state.specs.Rooms.{HasRoom, TakesRoom, needs};

use crate::state::State;
use qfs_base::history::Entry;
use qfs_base::image::Servers;
use qfs_base::numbers::{ActorId, FileId};
use qfs_base::path::Path;
use qfs_blocks::RecordRow;
use qfs_names::Moved;
use qfs_place::Loads;
use qfs_table::Run;

/// Takes the copies and grants of slots that go off the loads.
fn uncount_rows(loads: &mut Loads, servers: &Servers, rows: Run<'_, RecordRow>)
    ensures { loads.new ≡ fold (uncount_row servers.now) loads.old rows.entry }
{
    for row in rows {
        loads.uncount_row(servers.as_slice(), &row.row());
    }
}

/// Takes the current copies of slots, which others take the place of, off the loads.
fn uncount_current(loads: &mut Loads, servers: &Servers, rows: Run<'_, RecordRow>)
    ensures { loads.new
        ≡ fold (λ loads (row : SlotRow). uncount_live servers.now row.state.current loads)
        loads.old rows.entry }
{
    for row in rows {
        loads.uncount_live(servers.as_slice(), row.state().current);
    }
}

impl State {
    /// A directory is made.
    pub(crate) fn add_directory(&mut self, path: Path, entry: Entry)
        requires may { MayMake self.old.image (Is.AddDirectory path entry) }
        requires room { HasRoom (needs (Is.AddDirectory path entry)) self.old }
        ensures image { self.new.image ≡ apply self.old.image (Made.AddDirectory path) }
        ensures room { TakesRoom (needs (Is.AddDirectory path entry)) self.old self.new }
    {
        self.names.add_directory(path, entry);
    }

    /// An empty directory is taken away.
    pub(crate) fn take_directory(&mut self, path: Path, entry: Entry)
        requires may { MayMake self.old.image (Is.TakeDirectory path entry) }
        requires room { HasRoom (needs (Is.TakeDirectory path entry)) self.old }
        ensures image { self.new.image ≡ apply self.old.image (Made.TakeDirectory path) }
        ensures room { TakesRoom (needs (Is.TakeDirectory path entry)) self.old self.new }
    {
        self.names.take_directory(&path, entry);
    }

    /// A file is made, of so many bytes, that this command of this actor writes. `again` is a copy
    /// of its path.
    pub(crate) fn add_file(
        &mut self,
        path: Path,
        again: Path,
        actor: ActorId,
        command: u16,
        len: u32,
        entry: Entry,
    )
        requires may { MayMake self.old.image (Is.AddFile path again actor command len entry) }
        requires room { HasRoom (needs (Is.AddFile path again actor command len entry)) self.old }
        ensures image { self.new.image
            ≡ apply self.old.image (Made.AddFile path actor command len) }
        ensures room { TakesRoom (needs (Is.AddFile path again actor command len entry))
            self.old self.new }
    {
        self.names.add_file(path, again, actor, command, len, entry);
    }

    /// An unclosed file is closed by a command of its actor: the grants of its slots become
    /// current, and no server counts as failed any more.
    pub(crate) fn close_file(&mut self, file: FileId, actor: ActorId, command: u16)
        requires may { MayMake self.old.image (Is.CloseFile file actor command) }
        requires room { HasRoom (needs (Is.CloseFile file actor command)) self.old }
        ensures image { self.new.image
            ≡ apply self.old.image (Made.CloseFile file actor command) }
        ensures room { TakesRoom (needs (Is.CloseFile file actor command)) self.old self.new }
    {
        let rows = self.blocks.rows_of(file);
        uncount_current(&mut self.loads, &self.servers, rows);
        self.blocks.seal(file);
        let entry = Entry::Closed(file, actor, command);
        self.names.close_file(file, actor, command, entry);
    }

    /// An unclosed file is given up, and its slots with it.
    pub(crate) fn abort_file(&mut self, file: FileId)
        requires may { MayMake self.old.image (Is.AbortFile file) }
        requires room { HasRoom (needs (Is.AbortFile file)) self.old }
        ensures image { self.new.image ≡ apply self.old.image (Made.AbortFile file) }
        ensures room { TakesRoom (needs (Is.AbortFile file)) self.old self.new }
    {
        let rows = self.blocks.rows_of(file);
        uncount_rows(&mut self.loads, &self.servers, rows);
        self.blocks.forget(file);
        self.names.abort_file(file, Entry::Aborted(file));
    }

    /// What stands at a path, a closed file, is taken away, and the slots of the file of this
    /// number go.
    pub(crate) fn remove_file(&mut self, path: Path, file: FileId, entry: Entry)
        requires may { MayMake self.old.image (Is.RemoveFile path file entry) }
        requires room { HasRoom (needs (Is.RemoveFile path file entry)) self.old }
        ensures image { self.new.image ≡ apply self.old.image (Made.RemoveFile path file) }
        ensures room { TakesRoom (needs (Is.RemoveFile path file entry)) self.old self.new }
    {
        let rows = self.blocks.rows_of(file);
        uncount_rows(&mut self.loads, &self.servers, rows);
        self.blocks.forget(file);
        self.names.remove_file(&path, entry);
    }

    /// What lies within a path is moved to another.
    pub(crate) fn move_path(&mut self, from: Path, to: Path, moved: Moved, entry: Entry)
        requires may { MayMake self.old.image (Is.MovePath from to moved entry) }
        requires room { HasRoom (needs (Is.MovePath from to moved entry)) self.old }
        ensures image { self.new.image ≡ apply self.old.image (Made.MovePath from to) }
        ensures room { TakesRoom (needs (Is.MovePath from to moved entry)) self.old self.new }
    {
        self.names.move_path(&from, &to, moved, entry);
    }
}
