//! The world of a script at work: its metaserver, its chunk servers over their devices and its
//! actors, one step after another on one thread.
#![tactic(auto)]

mod parts;
mod world;

pub use parts::{Parts, PartsError, WorldLoadError};
pub use world::World;
