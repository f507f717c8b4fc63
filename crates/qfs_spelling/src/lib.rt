//! The values that records of requests and images are made of: the one spelling of each, and
//! reading it back.
#![tactic(auto)]

mod entries;
mod patch;
mod rows;
mod sets;
mod spelled;
mod values;

pub use patch::{set_u16, set_u32};
pub use spelled::Spelled;
pub use values::{file_length_at, flag_at, from_one_at, path_at, put_flag, put_of_path, put_path};
