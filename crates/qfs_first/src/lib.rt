//! Reading a script of the first forms, and the numbers among the words of the command line: what
//! the program reads by, until it takes the whole language.
#![tactic(auto)]

mod commands;
mod error;
mod examples;
mod head;
mod lines;
mod numbers;
mod script;

pub use error::ScriptError;
pub use examples::reads_by_lines;
pub use numbers::read_seed;
pub use script::read;
