//! A chunk server: which copies it has, and how it serves requests for them on its device.
#![tactic(auto)]

mod copies;
mod requests;
mod starting;
mod store;

pub use copies::CopySize;
pub use store::Store;
