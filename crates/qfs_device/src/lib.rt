//! The outside of the nodes: devices that keep chunks, disks that keep the metaserver's log,
//! sources and sinks of text, and the gate of a turn. All of them are handed in. Each tells
//! clauses what it holds, if it tells that at all, and counts its faults.
#![tactic(auto)]

mod chunk_device;
mod errors;
mod faults;
mod gate;
mod log_disk;
mod memory_device;
mod memory_disk;
mod memory_stream;
mod standard;
mod stream;
mod whole;

pub use chunk_device::{ChunkDevice, KeySize, KeySizes};
pub use errors::{DeviceError, Failed};
pub use faults::{FailList, Faults, NeverFails};
pub use gate::{Gate, NoGate};
pub use log_disk::{LogDisk, MetaDisks};
pub use memory_device::{MapDevice, MemoryDevice, SureDevice};
pub use memory_disk::{BytesDisk, MemoryDisk, SureDisk};
pub use memory_stream::{BytesSource, MemorySink, MemorySource, RoomSink, SureSink, SureSource};
pub use standard::{StdSink, StdSource};
pub use stream::{Sink, Source};
pub use whole::{read_all, write_all};
