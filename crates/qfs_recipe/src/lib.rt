//! The bytes that recipes stand for, as many at a time as a caller has room for.
#![tactic(auto)]

mod recipe;

pub use qfs_base::recipe::{Form, Recipe};
pub use recipe::RecipeCalls;
