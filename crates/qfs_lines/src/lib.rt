//! The words that the lines of a run's output are made of, and the lines of its replies.
#![tactic(auto)]

mod reply;
pub mod words;

pub use reply::push_replies;
