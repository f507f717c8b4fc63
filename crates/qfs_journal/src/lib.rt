//! The records of requests in the metaserver's log: the one spelling of each, and reading it back.
#![tactic(auto)]

mod fields;
mod log_reading;
mod log_writing;

pub use log_reading::{LogRead, log_records_are_apart, read_log};
pub use log_writing::write_log;
