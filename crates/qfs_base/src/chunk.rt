//! Blocks of files, and the chunks that hold their slots.

use crate::numbers::{FileId, Life, ServerId, Slot, Version};

/// One block of a file, by its index in the file.
#[derive(Clone, Copy, PartialEq, Eq, PartialOrd, Ord)]
pub struct BlockId {
    pub file: FileId,
    pub index: u32,
}

/// What a chunk is stored under: one version of one slot of one block. The order is that of
/// the fields in turn.
#[derive(Clone, Copy, PartialEq, Eq, PartialOrd, Ord)]
pub struct ChunkKey {
    pub block: BlockId,
    pub slot: Slot,
    pub version: Version,
}

/// Where a version of a slot stands: a server, in one of its lives.
#[derive(Clone, Copy, PartialEq, Eq)]
pub struct Copy {
    pub server: ServerId,
    pub life: Life,
    pub version: Version,
}
