//! The metaserver's log: checkpoints and the records behind them, on two disks, and what a crash at
//! any moment leaves of them.
#![tactic(auto)]

mod gate;
mod log;
mod spelled;

pub use log::Log;
pub use spelled::contents_are_spelled;
