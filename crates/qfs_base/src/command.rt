//! What actors are told to do, and what they report.

use crate::chunk::BlockId;
use crate::listing::Listing;
use crate::lists::{Bytes, Cause, CauseList, Names};
use crate::numbers::{ActorId, Life, Place, ServerId, Slot, Turn, Version};
use crate::path::Path;
use crate::recipe::Recipe;
use crate::reply::TreeRefusal;

/// Which bytes of a file are wanted: `count` bytes from `from` on, cut at the file's end. Both
/// are up to 268,435,456.
#[derive(Clone, Copy)]
pub struct Range {
    pub from: u32,
    pub count: u32,
}

/// A command on the name tree or on a file's bytes.
#[derive(Clone, Drop)]
pub enum FileCommand {
    Mkdir(Path),
    Rmdir(Path),
    Remove(Path),
    Rename(Path, Path),
    List(Path),
    Put(Path, Recipe),
    /// Without a range the whole file is wanted.
    Get(Path, Option<Range>),
}

/// A command of an actor.
#[derive(Clone, Drop)]
pub enum Command {
    File(FileCommand),
    /// Makes a missing chunk anew from six others: the file, the block's index and the slot.
    Recover(Path, u32, Slot),
    /// Moves a chunk to a server.
    Move(Path, u32, Slot, ServerId),
    /// Recovers at most so many missing chunks.
    Heal(u32),
    /// Moves at most so many chunks from full servers to empty ones.
    Rebalance(u32),
    /// Moves at most so many chunks off a server that is leaving.
    Evacuate(ServerId, u32),
    /// Deletes at most so many condemned copies.
    Sweep(u32),
    Stop(ServerId),
    Start(ServerId),
    Wipe(ServerId),
    /// Takes a server down that is expected back within so many ticks.
    Hibernate(ServerId, u32),
    /// Lets a server write its chunk records in the second version from now on.
    Upgrade(ServerId),
    Tick,
    Drop(ActorId),
    Checkpoint,
    Restart,
}

/// What is shown of bytes that were read: all of them up to 32, the SHA-256 of more.
#[derive(Drop)]
pub enum Shown {
    Whole(Bytes),
    Digest(Bytes),
}

/// What is kept of bytes that were read: how many they are, and what is shown of them.
#[derive(Drop)]
pub struct Excerpt {
    pub len: u32,
    pub shown: Shown,
}

/// What a command reports when it has ended. `R` is what a get keeps of the bytes that it read.
#[derive(Drop)]
pub enum Reply<R> {
    Done {
        place: Place,
    },
    Listed {
        place: Place,
        names: Names,
    },
    /// A put closed its file, which has `len` bytes.
    Stored {
        place: Place,
        len: u32,
    },
    /// A put found no server for this slot.
    PutNoServer {
        place: Place,
        index: u32,
        slot: Slot,
    },
    Read {
        place: Place,
        read: R,
    },
    /// A get found fewer than six readable copies of this block.
    ReadTooFew {
        place: Place,
        index: u32,
        causes: CauseList,
    },
    /// A file command was refused.
    Refused {
        place: Place,
        refusal: TreeRefusal,
    },

    Recovered {
        block: BlockId,
        slot: Slot,
        server: ServerId,
        version: Version,
    },
    Moved {
        block: BlockId,
        slot: Slot,
        from: ServerId,
        to: ServerId,
        version: Version,
    },
    TooFew {
        index: u32,
        causes: CauseList,
    },
    DestFailed {
        server: ServerId,
        cause: Cause,
    },
    SourceFailed {
        server: ServerId,
        cause: Cause,
    },
    /// The path of a recovery or move names no closed file.
    BadPath(TreeRefusal),
    NoBlock,
    Taken {
        version: Version,
    },
    Whole,
    Away {
        server: ServerId,
    },
    Barred {
        server: ServerId,
    },
    Gone,
    NoServer {
        block: BlockId,
        slot: Slot,
    },

    Healed {
        healed: u32,
        failed: u32,
    },
    HealNoServer {
        healed: u32,
        failed: u32,
        block: BlockId,
        slot: Slot,
    },
    Rebalanced {
        moved: u32,
        failed: u32,
    },
    Evacuated {
        moved: u32,
        failed: u32,
        left: u32,
    },
    EvacNoServer {
        moved: u32,
        failed: u32,
        block: BlockId,
        slot: Slot,
    },
    Swept {
        erased: u32,
    },

    Stopped,
    Started {
        life: Life,
    },
    Wiped {
        life: Life,
    },
    /// The device failed in a start or wipe.
    Fault,
    Hibernating {
        until: u64,
    },
    NotUp,
    /// A server writes its chunk records in the second version.
    Upgraded,
    /// A server that was to be upgraded isn't up.
    Down,
    Clock {
        now: u64,
    },
    /// The named actor was dropped.
    DropDone,
    Saved {
        turn: Turn,
    },
    Restarted {
        turn: Turn,
    },

    /// The asking actor had been dropped.
    Dropped {
        turn: Turn,
    },
    LogFault,
    NoMemory,
    BadLog {
        right: bool,
        offset: u64,
    },
    /// A node answered something that its request doesn't allow.
    Unnamed,
}

/// A report with the actor that it is of and the number of its command, from 1.
#[derive(Drop)]
pub struct ReplyLine {
    pub actor: ActorId,
    pub command: u16,
    pub reply: Reply<Excerpt>,
}

/// The reports of commands that have ended, by actor and command.
pub type ReplyList = Listing<ReplyLine>;
