//! What the metaserver and the chunk servers answer.

use crate::chunk::{BlockId, Copy};
use crate::listing::Listing;
use crate::lists::{Bytes, KeyList, Names, Nine};
use crate::numbers::{FileId, LeaseId, Life, Place, ServerId, Slot, Turn, Version};

/// Why the name tree refuses a request.
#[derive(Clone, Copy, PartialEq, Eq)]
pub enum TreeRefusal {
    NoParent,
    NotDir,
    Exists,
    Missing,
    NotEmpty,
    IsDir,
    Unclosed,
    IntoSelf,
    TooDeep,
}

/// Leave to store one version of a slot on a server.
///
/// A grant for a put has lease 0 and no sources; one for a move its source slot alone; one for a
/// recovery all listed slots but its own.
#[derive(Drop)]
pub struct Granted {
    pub block: BlockId,
    pub slot: Slot,
    pub version: Version,
    pub server: ServerId,
    pub life: Life,
    pub lease: LeaseId,
    pub sources: Nine,
    /// The rows of the block's chunks, up to 1,024.
    pub rows: u32,
}

/// A closed file under a lease: its length in bytes and, block by block, its listed copies.
#[derive(Drop)]
pub struct Opened {
    pub lease: LeaseId,
    pub place: Place,
    pub file: FileId,
    pub len: u32,
    pub blocks: Listing<Nine>,
}

/// A copy that may be deleted once no lease blocks it, by its number in the list of such copies.
#[derive(Clone, Copy)]
pub struct Condemned {
    pub number: u64,
    pub block: BlockId,
    pub slot: Slot,
    pub copy: Copy,
}

/// An answer of the metaserver.
#[derive(Drop)]
pub enum MetaReply {
    Done {
        place: Place,
    },
    Created {
        file: FileId,
        place: Place,
    },
    Granted(Granted),
    Opened(Opened),
    Confirmed,
    Vanished,
    Ordered {
        condemned: Condemned,
        turn: Turn,
    },
    Until {
        clock: u64,
    },
    Clock {
        now: u64,
    },
    Names {
        place: Place,
        names: Names,
    },
    Left {
        count: u32,
    },
    Saved {
        turn: Turn,
    },
    Restarted {
        turn: Turn,
    },

    /// The name tree refuses a file command.
    Refused {
        refusal: TreeRefusal,
        place: Place,
    },
    /// The path of a recovery or move names no closed file.
    BadPath(TreeRefusal),
    Gone,
    NoBlock,
    Taken {
        version: Version,
    },
    NoServer {
        block: BlockId,
        slot: Slot,
    },
    Incomplete {
        index: u32,
        slot: Slot,
    },
    Whole,
    Nothing,
    Away {
        server: ServerId,
    },
    Barred {
        server: ServerId,
    },
    Stale {
        held: Option<Version>,
        given: Version,
    },
    Old {
        known: Life,
    },
    NotUp,
    /// The asking actor was dropped at this turn.
    Dropped {
        turn: Turn,
    },
    LogFault,
    NoMemory,
    /// The newest disk isn't a checkpoint with its log: it goes wrong at this offset.
    BadLog {
        right: bool,
        offset: u64,
    },
}

/// An answer of a chunk server, without the room of a fetch.
#[derive(Drop)]
pub enum ChunkAnswer {
    Stored,
    Fetched,
    Erased,
    Stopped,
    Started { life: Life },
    Wiped { life: Life },
    Inventory { life: Life, keys: KeyList },
    Upgraded,
    Down,
    Lost { asked: Life, now: Life },
    Held,
    Absent,
    NoMemory,
    Fault,
}

/// An answer of a chunk server. A fetch hands its room back, whatever the answer; every other
/// request has an empty room.
#[derive(Drop)]
pub struct ChunkReply {
    pub answer: ChunkAnswer,
    pub room: Bytes,
}

/// An answer of a node.
#[derive(Drop)]
pub enum NodeReply {
    Meta(MetaReply),
    Chunk(ChunkReply),
}
