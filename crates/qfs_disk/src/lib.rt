//! The disks that keep the metaserver's log. A disk that tells its contents also tells what a crash
//! may leave of them, now and at any moment since a reading of its clock.
#![tactic(auto)]

mod call_list;
mod disk_call;
mod durable;
mod log_disk;
mod memory_disk;
mod moments;

pub use call_list::CallList;
pub use disk_call::DiskCall;
pub use durable::{cut_durably, write_durably};
pub use log_disk::LogDisk;
pub use memory_disk::{BytesDisk, MemoryDisk, SureDisk};
pub use moments::Moments;
