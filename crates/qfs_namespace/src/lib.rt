//! The metaserver's namespace: the name tree, what is known of its files, and the file history.
//! Reading calls say what a change would meet; the changes take room that was reserved, and can't
//! fail.
#![tactic(auto)]

mod changes;
mod file;
mod namespace;
mod reading;

pub use file::KnownFile;
pub use namespace::Namespace;
