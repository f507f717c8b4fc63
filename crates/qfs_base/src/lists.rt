//! The lists that messages and states are made of, each under the name of what it lists.

use crate::chunk::{BlockId, ChunkKey, Copy};
use crate::listing::Listing;
use crate::numbers::{ActorId, Life, Slot};

/// Bytes of a chunk, of a file or of a text.
pub type Bytes = Listing<u8>;

/// Keys of chunks.
pub type KeyList = Listing<ChunkKey>;

/// Blocks of files.
pub type BlockList = Listing<BlockId>;

/// The life of each server, by its number.
pub type LifeList = Listing<Life>;

/// The actors whose turn it may be, by number.
pub type TurnList = Listing<ActorId>;

/// The copies of a block's nine slots, by slot: `None` where a slot isn't listed.
pub type Nine = Listing<Option<Copy>>;

/// A file or directory right below another.
#[derive(Drop)]
pub struct Name {
    pub part: Bytes,
    pub kind: NameKind,
}

/// What a name in a directory stands for.
#[derive(Clone, Copy)]
pub enum NameKind {
    Directory,
    Unclosed,
    Closed,
}

/// What stands right below a directory, in the order of the names' bytes.
pub type Names = Listing<Name>;

/// Why a chunk couldn't be read or stored.
#[derive(Clone, Copy)]
pub enum Cause {
    /// The metaserver didn't list the slot.
    Unlisted,
    /// The server isn't up.
    Down,
    /// The server was emptied since: the life that was asked for, and the present one.
    Lost { asked: Life, now: Life },
    /// The server has no such copy.
    Absent,
    /// The server's device failed.
    Fault,
}

/// A slot that couldn't be read, and why.
#[derive(Clone, Copy)]
pub struct SlotCause {
    pub slot: Slot,
    pub cause: Cause,
}

/// The slots of a block that couldn't be read, by slot.
pub type CauseList = Listing<SlotCause>;
