//! The commands of one request to the metaserver: on the name tree, on the clock, on an actor, and
//! on the metaserver's log.
#![tactic(auto)]

mod ending;
mod one_request;
mod simple;

pub use one_request::OneRequest;
pub use simple::SimpleCommand;
