//! Moves: the copy of a slot is read whole from its server and stored on another, for one slot that
//! is named, to even the servers out, or to empty a server that leaves.
#![tactic(auto)]

mod copying;
mod ending;
mod grant;
mod mover;
mod request;
mod stage;
mod step;
mod turn;

pub use mover::Mover;
