//! The records that chunk servers and the metaserver keep on their disks: the one spelling of each
//! value, and reading it back.
#![tactic(auto)]

mod chunk;
mod head;
mod reading;
mod writing;

pub use chunk::{ChunkRead, chunk_records_are_apart, read_chunk, write_chunk};
pub use head::{Head, block_at, is_second, key_at, put_block, put_key, read_head, slot_at};
pub use reading::{counted_u16_at, counted_u32_at, u8_at, u16_at, u32_at, u64_at};
pub use writing::{put_u8, put_u16, put_u32, put_u64};
