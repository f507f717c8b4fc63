//! A put: it makes a file, stores each slot of each block on a server, and closes the file.
#![tactic(auto)]

mod chunk;
mod request;
mod stage;
mod turn;
mod writer;

pub use writer::Writer;
