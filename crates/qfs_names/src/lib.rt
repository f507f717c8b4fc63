//! The metaserver's name tree over sorted tables: the directories and files by path, and the paths
//! of unclosed files by number. Reading calls say what a change would meet; the changes take room
//! that was reserved, and can't fail.
#![tactic(auto)]

mod calls;
mod changes;
mod error;
mod fill;
mod images;
mod key;
mod kinds;
mod listing;
mod moving;
mod paths;
mod refusals;
mod row;
mod tree;

pub use error::TreeError;
pub use moving::Moved;
pub use paths::copy_path;
pub use row::NameRow;
pub use tree::Tree;
