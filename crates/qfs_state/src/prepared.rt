//! What a request does, prepared: its changes with all memory that they take beside the tables',
//! and its reply.
ghost use Rattle.std.specs.Prelude.{◌≡◌, map};

use qfs_base::chunk::ChunkKey;
use qfs_base::history::Entry;
use qfs_base::numbers::{ActorId, FileId, LeaseId, Life, ServerId};
use qfs_base::path::Path;
use qfs_base::reply::MetaReply;
use qfs_base::request::SlotId;
use qfs_names::Moved;
use std::alloc::AllocError;

/// A change of the state with what was made for it before: entries of the file history, further
/// copies of paths, the rows of a rename, and what was counted.
#[derive(Drop)]
pub enum Prepared {
    AddDirectory {
        path: Path,
        entry: Entry,
    },
    TakeDirectory {
        path: Path,
        entry: Entry,
    },
    /// `again` is a copy of the path.
    AddFile {
        path: Path,
        again: Path,
        actor: ActorId,
        command: u16,
        len: u32,
        entry: Entry,
    },
    CloseFile {
        file: FileId,
        actor: ActorId,
        command: u16,
    },
    AbortFile {
        file: FileId,
    },
    RemoveFile {
        path: Path,
        file: FileId,
        entry: Entry,
    },
    MovePath {
        from: Path,
        to: Path,
        moved: Moved,
        entry: Entry,
    },

    GrantSlot {
        id: SlotId,
        server: ServerId,
        actor: ActorId,
        lease: LeaseId,
    },
    FailGrant {
        id: SlotId,
    },
    GiveUp {
        id: SlotId,
    },
    ConfirmSlot {
        id: SlotId,
    },
    EmptySlot {
        id: SlotId,
    },

    GiveLease {
        actor: ActorId,
        file: FileId,
        until: u64,
    },
    EndLease {
        lease: LeaseId,
    },

    MarkOrdered {
        number: u64,
    },
    TakeCondemned {
        number: u64,
    },
    CondemnStray {
        server: ServerId,
        life: Life,
        key: ChunkKey,
    },

    /// `count` is how many copies and grants stand on the server in that life.
    ServerUp {
        server: ServerId,
        life: Life,
        count: u32,
    },
    ServerDown {
        server: ServerId,
    },
    ServerLeaves {
        server: ServerId,
    },
    ServerSleeps {
        server: ServerId,
        until: u64,
    },

    ClockTicks,
    DropActor {
        actor: ActorId,
    },
}

/// What was decided on a request that isn't refused: the changes, one after another, and the reply.
#[derive(Drop)]
pub struct Plan {
    pub changes: Vec<Prepared>,
    pub reply: MetaReply,
}

/// Why there is no plan: the request is refused or changes nothing, and this is its reply; or
/// there was no memory for a plan.
#[derive(Drop)]
pub enum Unplanned {
    Tells(MetaReply),
    NoMemory,
}

impl From<AllocError> for Unplanned {
    ghost use Rattle.std.specs.Prelude.{◌≡◌};
    ghost use Rattle.qfs_state.specs.declared.prepared.Unplanned.TheVariants as Is;

    ghost from_gives = { λ _ e. e ≡ Is.NoMemory };

    fn from(_: AllocError) -> Unplanned {
        Unplanned::NoMemory
    }
}
