//! Actors: each carries out its commands one after another, by requests to the nodes.
#![tactic(auto)]

mod actor;
mod actor_model;
mod command_machine;
mod state;

pub use actor::Actor;
pub use command_machine::CommandMachine;
