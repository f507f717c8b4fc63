//! The tree of directories and files.
#![tactic(auto)]

mod path;

pub use path::PathCalls;
pub use qfs_base::path::Path;
