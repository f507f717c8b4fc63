//! Actors: each carries out its commands one after another, by requests to the nodes.
#![tactic(auto)]

mod actor;
mod actor_model;
mod begin;
mod state;

pub use actor::Actor;
pub use begin::Begin;
