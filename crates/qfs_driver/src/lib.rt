//! The calls that the program makes: a script is read, its commands are run over devices that are
//! handed in, and what comes of it is written.
#![tactic(auto)]

mod calls;
mod draws;
mod one_thread;
mod output;
mod play;
mod reading;
mod run;
mod status;
mod words;

pub use calls::top;
pub use one_thread::{Plan, serial};
pub use status::Status;
