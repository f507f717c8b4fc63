//! The sizes and limits of the file system, each named once.

use crate::numbers::{ServerId, Slot, Version};

/// How many slots a block has.
pub const SLOTS: Slot = 9;

/// How many of a block's slots hold the file's own bytes. The others hold parity.
pub const DATA_SLOTS: Slot = 6;

/// The rows of an aligned group, which are read together.
pub const WINDOW_ROWS: u32 = 16;

/// The most rows of a chunk.
pub const MOST_ROWS: u32 = 1_024;

/// The most bytes of a file.
pub const MOST_FILE_BYTES: u32 = 268_435_456;

/// The most bytes of a chunk.
pub const MOST_CHUNK_BYTES: u32 = 67_108_864;

/// The bytes of a chunk record of version 1 before those of its chunk.
pub const FIRST_HEAD_BYTES: u32 = 21;

/// The same of version 2, which names its stripe too.
pub const SECOND_HEAD_BYTES: u32 = 25;

/// The most servers of a script.
pub const MOST_SERVERS: ServerId = 64;

/// The most steps of one run of an order line.
pub const LONGEST_RUN: u32 = 4_294_967_295;

/// The last value that a version can have.
pub const LAST_VERSION: Version = 4_294_967_295;
