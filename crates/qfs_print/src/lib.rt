//! Printing scripts: the lines of commands, and the text of a whole script.
#![tactic(auto)]

mod commands;
mod script;

pub use commands::{push_command, push_commands};
pub use script::print;
