//! The numbers that name things, each in the width in which messages and records carry it.

/// Names a file for good: 1 and up, never used again.
pub type FileId = u32;

/// Counts the grants of one slot of one block: 1 and up.
pub type Version = u32;

/// Counts the times that a server was emptied, from 1.
pub type Life = u32;

/// The number of entries in the file history when a request is decided.
pub type Place = u32;

/// Names a chunk server: 1 to 64.
pub type ServerId = u16;

/// Names an actor of a script: 1 to 64.
pub type ActorId = u16;

/// One of a block's nine places: 0 to 5 hold data, 6 to 8 parity.
pub type Slot = u8;

/// Names a lease for good: 1 and up, never used again.
pub type LeaseId = u64;

/// The number of requests that the metaserver has logged.
pub type Turn = u64;

/// The node that serves a request: 0 is the metaserver, s is server s.
pub type NodeId = u16;
