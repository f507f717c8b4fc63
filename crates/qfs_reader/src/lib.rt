//! Gets: the machine that reads a range of a file from any six of the nine slots of each block.
#![tactic(auto)]

mod block;
mod cut;
mod fetch;
mod meta;
mod parts;
mod read_so_far;
mod reader;
mod request;
mod sources;
mod stage;
mod supply;
mod window;

pub use reader::Reader;
