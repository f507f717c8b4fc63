//! Reads the disks of a metaserver's log.
#![tactic(auto)]

mod whole;

pub use whole::read_whole;
