//! The changes of the metaserver's state.

use crate::chunk::{BlockId, ChunkKey};
use crate::numbers::{ActorId, FileId, LeaseId, Life, ServerId, Slot};
use crate::path::Path;

/// A change of the metaserver's state. A request that isn't refused makes a few of them, one after
/// another. Each leaves the lists of the state fitting together as those of an image do.
#[derive(Drop)]
pub enum Change {
    /// The name tree, and the file history with it.
    AddDirectory {
        path: Path,
    },
    TakeDirectory {
        path: Path,
    },
    AddFile {
        path: Path,
        actor: ActorId,
        command: u16,
        len: u32,
    },
    CloseFile {
        file: FileId,
        actor: ActorId,
        command: u16,
    },
    AbortFile {
        file: FileId,
    },
    RemoveFile {
        path: Path,
        file: FileId,
    },
    MovePath {
        from: Path,
        to: Path,
    },

    /// A slot gets a grant.
    GrantSlot {
        block: BlockId,
        slot: Slot,
        server: ServerId,
        actor: ActorId,
        lease: LeaseId,
    },
    /// The server of a pending grant failed: the grant is condemned, and the slot remembers the
    /// server.
    FailGrant {
        block: BlockId,
        slot: Slot,
    },
    /// A pending grant is given up: it is condemned.
    GiveUp {
        block: BlockId,
        slot: Slot,
    },
    /// A pending grant becomes current, and the copy before it is condemned.
    ConfirmSlot {
        block: BlockId,
        slot: Slot,
    },
    /// A slot loses its copies: they are condemned.
    EmptySlot {
        block: BlockId,
        slot: Slot,
    },

    /// A lease is given until a reading of the clock, or for good where that is 0.
    GiveLease {
        actor: ActorId,
        file: FileId,
        until: u64,
    },
    EndLease {
        lease: LeaseId,
    },

    /// A condemned copy is ordered deleted.
    MarkOrdered {
        number: u64,
    },
    /// A condemned copy is gone.
    TakeCondemned {
        number: u64,
    },
    /// A copy that no slot knows of was found on a server: it is condemned.
    CondemnStray {
        server: ServerId,
        life: Life,
        key: ChunkKey,
    },

    ServerUp {
        server: ServerId,
        life: Life,
    },
    ServerDown {
        server: ServerId,
    },
    ServerLeaves {
        server: ServerId,
    },
    ServerSleeps {
        server: ServerId,
        until: u64,
    },

    /// The clock goes on by one. Leases whose time has come end by changes of their own.
    ClockTicks,
    /// An actor counts as dropped.
    DropActor {
        actor: ActorId,
    },
}
