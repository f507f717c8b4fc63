//! The command that a line of a script says, by the words behind its first one. Each call answers
//! as the grammar of scripts says.
#![tactic(auto)]

mod commands;
mod puts;

pub use commands::command_of;
