//! Recoveries: a missing chunk is made anew from six others of its block and stored on another
//! server, for one slot that is named, or for one missing slot after another.
#![tactic(auto)]

mod ending;
mod recovery;
mod request;
mod restoring;
mod stage;
mod step;
mod turn;

pub use recovery::Recovery;
