//! Reads the checkpoint on a disk of the metaserver and the records of the log behind it.
#![tactic(auto)]

mod errors;
mod reading;

pub use errors::LoadError;
pub use reading::{Checkpoint, LogRecords, read_checkpoint};
