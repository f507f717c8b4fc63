//! A sweep: condemned copies are ordered deleted one after another, and deleted on their servers.
#![tactic(auto)]

mod stage;
mod sweep;
mod turn;

pub use sweep::Sweep;
