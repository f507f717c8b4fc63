//! The file history, and the steps of a run.

use crate::listing::Listing;
use crate::lists::{Bytes, Names};
use crate::numbers::{ActorId, FileId};
use crate::path::Path;
use crate::reply::TreeRefusal;

/// One change of the name tree.
#[derive(Drop)]
pub enum Entry {
    Mkdir(Path),
    Rmdir(Path),
    Created(FileId, Path),
    /// The file was closed by this command of this actor.
    Closed(FileId, ActorId, u16),
    Aborted(FileId),
    Removed(Path),
    Renamed(Path, Path),
}

/// The changes of the name tree, in order.
pub type History = Listing<Entry>;

/// What a file command answers at a place of the history.
#[derive(Drop)]
pub enum FileReply {
    Refused(TreeRefusal),
    Done,
    Names(Names),
    Read(Bytes),
    Accepted,
}

/// How a step ended at its node.
#[derive(Clone, Copy, PartialEq, Eq)]
pub enum Outcome {
    Done,
    /// A device or disk of the node failed.
    Failed,
    NoMemory,
}

/// One step: who took it and how it ended.
#[derive(Clone, Copy, PartialEq, Eq)]
pub struct Step {
    pub actor: ActorId,
    pub outcome: Outcome,
}
