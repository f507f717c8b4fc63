//! Plans of the requests of files: of the name tree, of puts and of gets. Each request reads the
//! state and tells what it changes and what it answers, or why there is no plan.
#![tactic(auto)]

mod closing;
mod gets;
mod listed;
mod puts;
mod tree;

pub use gets::{plan_open, plan_release};
pub use puts::{plan_abort, plan_close, plan_create};
pub use tree::{plan_list, plan_mkdir, plan_remove, plan_rename, plan_rmdir};
