//! What a file command is answered.
ghost use Rattle.std.specs.Prelude.{◌≡◌, IfOk};
ghost use Rattle.qfs_base.specs.FileReplies.{bytes_at, bytes_of_content, file_reply, refused_or, reply_at, wanted_bytes};
ghost use Rattle.qfs_base.specs.NameTree.{directory_refusal, look_refusal, names_below};
ghost use Rattle.qfs_base.specs.declared.history.FileReply.TheVariants as Told;
ghost use Rattle.qfs_model_world.specs.Puts.{puts_of};
ghost use Rattle.qfs_files.specs.Rows.{content_held, entries_from, standing_of};

use crate::files::{Files, files_of};
use crate::listing::names_below;
use crate::puts::read_put;
use crate::row::Holding;
use qfs_base::command::{FileCommand, Range};
use qfs_base::history::{FileReply, History};
use qfs_base::listing::Listing;
use qfs_base::lists::Bytes;
use qfs_base::numbers::Place;
use qfs_base::reply::TreeRefusal;
use qfs_base::script::Script;
use std::alloc::{AllocError, Global};

/// A refusal, or else this reply.
#[tactic(auto, unfolding(qfs_base::specs::FileReplies::refused_or))]
fn refused_or(reply: FileReply, refusal: Option<TreeRefusal>) -> FileReply
    ensures { result ≡ refused_or reply refusal }
{
    match refusal {
        Some(refusal) => FileReply::Refused(refusal),
        None => reply,
    }
}

/// The bytes that are wanted of what a path holds: none where that is no closed file.
#[tactic(auto, using(crate::proofs::PutLaws::wanted_nil), unfolding(qfs_base::specs::FileReplies::bytes_of_content))]
fn read_held(
    alloc: Global,
    script: &Script,
    holding: Holding,
    range: Option<Range>,
) -> Result<Bytes, AllocError>
    ensures { IfOk result (λ bytes. bytes
        ≡ wanted_bytes (bytes_of_content (content_held (puts_of script.now) holding)) range) }
{
    match holding {
        Holding::Closed(_, actor, command) => read_put(alloc, script, actor, command, range),
        Holding::Directory | Holding::Unclosed(_) => Ok(Listing::new(alloc)),
    }
}

impl Files {
    /// The bytes that are wanted of what stands at a path: none where that is no closed file.
    fn read(
        &self,
        script: &Script,
        names: &[Bytes],
        range: Option<Range>,
    ) -> Result<Bytes, AllocError>
        ensures { IfOk result (λ bytes. bytes ≡ wanted_bytes
            (bytes_at (entries_from (puts_of script.now) self.now) names.now) range) }
    {
        match self.row_at(names) {
            Some(row) => read_held(self.alloc, script, row.holding, range),
            None => Ok(Listing::new(self.alloc)),
        }
    }

    /// What a get is answered: the bytes that are wanted, or why the path is no closed file.
    #[tactic(auto, unfolding(qfs_base::specs::FileReplies::refused_or))]
    fn get(
        &self,
        script: &Script,
        names: &[Bytes],
        range: Option<Range>,
    ) -> Result<FileReply, AllocError>
        ensures { IfOk result (λ reply. reply ≡ refused_or (Told.Read (wanted_bytes
            (bytes_at (entries_from (puts_of script.now) self.now) names.now) range))
            (look_refusal (standing_of self.now) names.now)) }
    {
        match self.look_refusal(names) {
            Some(refusal) => Ok(FileReply::Refused(refusal)),
            None => Ok(FileReply::Read(self.read(script, names, range)?)),
        }
    }

    /// What a list is answered: the names right below, or why the path is no directory.
    #[tactic(auto, unfolding(qfs_base::specs::FileReplies::refused_or))]
    fn list(&self, names: &[Bytes]) -> Result<FileReply, AllocError>
        ensures { IfOk result (λ reply. reply ≡ refused_or
            (Told.Names (names_below (standing_of self.now) names.now))
            (directory_refusal (standing_of self.now) names.now)) }
    {
        match self.directory_refusal(names) {
            Some(refusal) => Ok(FileReply::Refused(refusal)),
            None => Ok(FileReply::Names(names_below(self.alloc, names, self.rows())?)),
        }
    }

    /// What a command is answered over these files.
    #[tactic(auto, using(crate::proofs::EntryLaws::standing_same), unfolding(qfs_base::specs::FileReplies::file_reply))]
    fn reply(&self, script: &Script, command: &FileCommand) -> Result<FileReply, AllocError>
        ensures { IfOk result (λ reply. reply
            ≡ file_reply (entries_from (puts_of script.now) self.now) command.now) }
    {
        match command {
            FileCommand::Mkdir(path) => Ok(refused_or(
                FileReply::Done,
                self.add_refusal(path.names.as_slice()),
            )),
            FileCommand::Rmdir(path) => Ok(refused_or(
                FileReply::Done,
                self.rmdir_refusal(path.names.as_slice()),
            )),
            FileCommand::Remove(path) => Ok(refused_or(
                FileReply::Done,
                self.look_refusal(path.names.as_slice()),
            )),
            FileCommand::Rename(from, to) => Ok(refused_or(
                FileReply::Done,
                self.rename_refusal(from.names.as_slice(), to.names.as_slice()),
            )),
            FileCommand::List(path) => self.list(path.names.as_slice()),
            FileCommand::Put(path, _) => Ok(refused_or(
                FileReply::Accepted,
                self.add_refusal(path.names.as_slice()),
            )),
            FileCommand::Get(path, range) => self.get(script, path.names.as_slice(), *range),
        }
    }
}

/// What a file command is answered at a place of a history, which is the number of entries that
/// decide: the first refusal of its rules, or else that it is done or accepted, the names right
/// below a directory, or the bytes of a closed file. A file's bytes are those of the put that
/// closed it, by the script; a Closed entry that names no put of the script leaves an empty file.
/// Where the history has fewer entries than the place, all of them decide.
pub fn reply_at(
    alloc: Global,
    script: &Script,
    history: &History,
    place: Place,
    command: &FileCommand,
) -> Result<FileReply, AllocError>
    ensures reply { IfOk result
        (λ reply. reply ≡ reply_at (puts_of script.now) history.now place command.now) }
{
    let entries = history.as_slice();
    let place = (place as usize).min(entries.len());
    let files = files_of(alloc, &entries[..place])?;
    files.reply(script, command)
}
