//! The commands by which servers go and come: stop, start, wipe, hibernate, and the upgrade of the
//! chunk records that a server writes.
#![tactic(auto)]

mod ending;
mod server_change;
mod stage;
mod turn;

pub use server_change::ServerChange;
