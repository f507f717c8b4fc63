//! Images of a metaserver's state, as checkpoints hold them: the one spelling of each, and reading it
//! back.
#![tactic(auto)]

mod files;
mod order;
mod reading;
mod rules;
mod writing;

pub use reading::{ImageRead, images_are_apart, images_keep_rules, read_image};
pub use writing::write_image;
