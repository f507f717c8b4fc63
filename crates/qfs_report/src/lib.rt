//! The output of a run: the replies, the history of the files, the audit and the order of steps.
#![tactic(auto)]

mod audit;
mod closed;
mod held;
mod history;
mod order;
mod output;

pub use history::push_history;
pub use order::push_order;
pub use output::text;
pub use qfs_lines::push_replies;
