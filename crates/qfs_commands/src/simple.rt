//! The commands that ask the metaserver once.
#![tactic(auto, unfolding(crate::specs::Simple::request_of_simple))]

ghost use Rattle.std.specs.Prelude.{◌≡◌, IfOk};
ghost use Rattle.qfs_commands.specs.Simple.{request_of_simple};

use qfs_base::numbers::ActorId;
use qfs_base::path::Path;
use qfs_base::request::MetaRequest;
use std::alloc::AllocError;

/// A command that asks the metaserver once.
#[derive(Drop)]
pub enum SimpleCommand {
    /// Makes a directory.
    Mkdir(Path),
    /// Takes an empty directory away.
    Rmdir(Path),
    /// Takes a closed file away.
    Remove(Path),
    /// Moves a file, or a directory with all below it.
    Rename(Path, Path),
    /// Names what a directory has.
    List(Path),
    /// Moves the clock on by one.
    Tick,
    /// Drops an actor.
    Drop(ActorId),
    /// Writes a checkpoint.
    Checkpoint,
    /// Lets the metaserver begin again from its disks.
    Restart,
}

impl SimpleCommand {
    /// The request, with copies of the command's paths. Want of memory is its one failure.
    pub fn request(&self) -> Result<MetaRequest, AllocError>
        ensures { IfOk result (λ request. request ≡ request_of_simple self.now) }
    {
        let request = match self {
            SimpleCommand::Mkdir(path) => MetaRequest::Mkdir {
                path: path.clone()?,
            },
            SimpleCommand::Rmdir(path) => MetaRequest::Rmdir {
                path: path.clone()?,
            },
            SimpleCommand::Remove(path) => MetaRequest::Remove {
                path: path.clone()?,
            },
            SimpleCommand::Rename(from, to) => {
                let from = from.clone()?;
                let to = to.clone()?;
                MetaRequest::Rename { from, to }
            }
            SimpleCommand::List(path) => MetaRequest::List {
                path: path.clone()?,
            },
            SimpleCommand::Tick => MetaRequest::Tick,
            SimpleCommand::Drop(actor) => MetaRequest::Drop { actor: *actor },
            SimpleCommand::Checkpoint => MetaRequest::Checkpoint,
            SimpleCommand::Restart => MetaRequest::Restart,
        };
        Ok(request)
    }
}
