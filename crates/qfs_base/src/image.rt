//! The metaserver's state, as plain lists and numbers.

use crate::chunk::{BlockId, Copy};
use crate::history::History;
use crate::listing::Listing;
use crate::numbers::{ActorId, FileId, LeaseId, Life, Slot, Turn, Version};
use crate::path::Path;
use crate::reply::Condemned;
use crate::server_set::ServerSet;

/// A server as the metaserver sees it.
#[derive(Clone, Copy)]
pub struct ServerView {
    pub up: bool,
    /// Whether it takes no new chunks.
    pub leaving: bool,
    /// The newest life that the metaserver knows of.
    pub life: Life,
    /// The clock reading until which it hibernates: 0 where it doesn't.
    pub until: u64,
}

/// The servers by number, the first of which is server 1.
pub type Servers = Listing<ServerView>;

/// A server as placement sees it.
#[derive(Clone, Copy)]
pub struct Load {
    pub up: bool,
    pub leaving: bool,
    /// Its live current copies and live pending grants.
    pub count: u32,
}

/// The load of each server, by number.
pub type Census = Listing<Load>;

/// A directory or file under its path, as the name tree has it. A directory has file 0 and isn't
/// closed.
#[derive(Drop)]
pub struct TreeEntry {
    pub path: Path,
    pub file: FileId,
    pub closed: bool,
}

/// The name tree, by path in the order of its parts.
pub type TreeList = Listing<TreeEntry>;

/// A directory or file with the command that made it and its length in bytes: all 0 for a
/// directory.
#[derive(Drop)]
pub struct TreeRow {
    pub path: Path,
    pub file: FileId,
    pub closed: bool,
    pub actor: ActorId,
    pub command: u16,
    pub len: u32,
}

/// A pending grant: the copy that it allows, to whom, and under which lease (0 for a put).
#[derive(Clone, Copy)]
pub struct Grant {
    pub copy: Copy,
    pub actor: ActorId,
    pub lease: LeaseId,
}

/// What is known of a slot of a block.
#[derive(Clone, Copy)]
pub struct SlotRecord {
    /// The version that the next grant gets.
    pub next: Version,
    pub current: Option<Copy>,
    pub grant: Option<Grant>,
    /// The servers that failed a put of this slot while the file is unclosed.
    pub failed: ServerSet,
}

/// A slot with its record.
#[derive(Clone, Copy)]
pub struct SlotRow {
    pub block: BlockId,
    pub slot: Slot,
    pub state: SlotRecord,
}

/// The slots that have a record, by block and slot.
pub type RecordList = Listing<SlotRow>;

/// A live lease: its holder, and the file that it keeps from deletion.
#[derive(Clone, Copy)]
pub struct Lease {
    pub lease: LeaseId,
    pub actor: ActorId,
    pub file: FileId,
    /// The clock reading at which it ends: 0 where it lasts until it is given back.
    pub until: u64,
}

/// The live leases, by number.
pub type LeaseList = Listing<Lease>;

/// A condemned copy, whether its deletion was ordered, and the leases that block it.
#[derive(Drop)]
pub struct CondemnedRow {
    pub condemned: Condemned,
    pub ordered: bool,
    /// The live leases that were given on its file before it was condemned, rising.
    pub blockers: Listing<LeaseId>,
}

/// A condemned copy as the tables keep it: the live leases on its file with a number below
/// `below` block it.
#[derive(Clone, Copy)]
pub struct CondemnedEntry {
    pub condemned: Condemned,
    pub ordered: bool,
    pub below: LeaseId,
}

/// The condemned copies, by number.
pub type CondemnedList = Listing<CondemnedEntry>;

/// An actor that was dropped, and the turn just before.
#[derive(Clone, Copy)]
pub struct DroppedActor {
    pub actor: ActorId,
    pub turn: Turn,
}

/// The whole state of the metaserver.
#[derive(Drop)]
pub struct MetaImage {
    pub turn: Turn,
    pub clock: u64,
    pub next_file: FileId,
    pub next_lease: LeaseId,
    pub next_condemned: u64,
    pub servers: Servers,
    /// By path, in the order of its parts.
    pub tree: Listing<TreeRow>,
    pub slots: RecordList,
    pub leases: LeaseList,
    /// By number.
    pub condemned: Listing<CondemnedRow>,
    /// By actor.
    pub dropped: Listing<DroppedActor>,
    pub history: History,
}
