//! The words that all crates of the file system share: numbers, keys, requests and replies,
//! commands, scripts, and the metaserver's state.
#![tactic(auto)]

pub mod change;
pub mod chunk;
pub mod command;
pub mod history;
pub mod image;
pub mod key_map;
pub mod layout;
pub mod listing;
mod listing_compared;
pub mod lists;
pub mod mask;
pub mod numbers;
pub mod order;
pub mod path;
pub mod recipe;
pub mod reply;
pub mod request;
pub mod reserved;
pub mod rules;
pub mod script;
pub mod server_set;
pub mod sizes;
