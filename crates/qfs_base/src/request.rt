//! What actors ask the metaserver and the chunk servers.

use crate::chunk::{BlockId, ChunkKey};
use crate::lists::{Bytes, KeyList};
use crate::numbers::{ActorId, FileId, LeaseId, Life, ServerId, Slot, Version};
use crate::path::Path;

/// A slot of a block of a file. The order is that of the fields in turn.
#[derive(Clone, Copy, PartialEq, Eq, PartialOrd, Ord)]
pub struct SlotId {
    pub block: BlockId,
    pub slot: Slot,
}

/// A request to the metaserver. Those up to `Drop` are logged unless they are refused.
#[derive(Drop)]
pub enum MetaRequest {
    /// Makes a directory.
    Mkdir {
        path: Path,
    },
    /// Takes an empty directory away.
    Rmdir {
        path: Path,
    },
    /// Takes a closed file away.
    Remove {
        path: Path,
    },
    /// Moves a file, or a directory with all below it.
    Rename {
        from: Path,
        to: Path,
    },
    /// Makes an unclosed file of `len` bytes for the actor's command of this number.
    Create {
        path: Path,
        command: u16,
        len: u32,
    },
    /// Grants a server for a slot of an unclosed file. `again` says that the server of the
    /// pending grant failed.
    Grant {
        file: FileId,
        index: u32,
        slot: Slot,
        again: bool,
    },
    /// Closes a file: its grants become current.
    Close {
        file: FileId,
    },
    /// Gives an unclosed file up.
    Abort {
        file: FileId,
    },
    /// Opens a closed file under a lease.
    OpenFile {
        path: Path,
    },
    /// Ends a lease.
    Release {
        lease: LeaseId,
    },
    /// Grants the recovery of a missing slot.
    RecoverAt {
        path: Path,
        index: u32,
        slot: Slot,
    },
    /// Grants the recovery of the first missing slot above `after`.
    HealNext {
        after: Option<SlotId>,
    },
    /// Grants the move of a slot's copy to a server.
    MoveAt {
        path: Path,
        index: u32,
        slot: Slot,
        to: ServerId,
    },
    /// Grants the move of the first copy on a server above `after`.
    EvacNext {
        server: ServerId,
        after: Option<SlotId>,
    },
    /// Grants a move from the server with the most copies to the one with the fewest.
    BalanceNext,
    /// Makes the granted copy of a recovery or move current.
    Confirm {
        block: BlockId,
        slot: Slot,
        version: Version,
        lease: LeaseId,
    },
    /// Gives a recovery or move up.
    Abandon {
        block: BlockId,
        slot: Slot,
        version: Version,
        lease: LeaseId,
    },
    /// Orders the deletion of the first condemned copy above `after` that no lease blocks.
    OrderNext {
        after: u64,
    },
    /// Says that a condemned copy is gone.
    Swept {
        number: u64,
    },
    /// A server came up in this life, with these keys.
    Hello {
        server: ServerId,
        life: Life,
        keys: KeyList,
    },
    /// A server went down.
    Bye {
        server: ServerId,
    },
    /// A server takes no new chunks from now on.
    Leave {
        server: ServerId,
    },
    /// A server goes down and is expected back within this many ticks.
    Hibernate {
        server: ServerId,
        ticks: u32,
    },
    /// The clock goes on by one.
    Tick,
    /// Drops an actor.
    Drop {
        actor: ActorId,
    },
    /// Lists a directory.
    List {
        path: Path,
    },
    /// Counts the copies and grants on a server.
    LeftOn {
        server: ServerId,
    },
    /// Saves the state as a checkpoint.
    Checkpoint,
    /// Takes the state from the newest checkpoint and its log.
    Restart,
}

/// A request to a chunk server.
#[derive(Drop)]
pub enum ChunkRequest {
    /// Stores a copy.
    Put {
        key: ChunkKey,
        life: Life,
        bytes: Bytes,
    },
    /// Reads as many bytes of a copy as `room` is long, from offset `from` on.
    Fetch {
        key: ChunkKey,
        life: Life,
        from: u32,
        room: Bytes,
    },
    /// Deletes a copy.
    Erase {
        key: ChunkKey,
        life: Life,
    },
    /// Takes the server down.
    Stop,
    /// Brings the server up.
    Start,
    /// Empties the server, whose next life begins.
    Wipe,
    /// Lists the copies.
    Inventory,
    /// Makes the server write its chunk records in the second version from now on.
    Upgrade,
}

/// A request to a node.
#[derive(Drop)]
pub enum NodeRequest {
    Meta(MetaRequest),
    Chunk(ServerId, ChunkRequest),
}
