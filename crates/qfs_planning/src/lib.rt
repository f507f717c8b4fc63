//! What the plans of all requests are made of: the place in the file history, refusals of the name
//! tree, and plans of one change or of several.
#![tactic(auto)]

mod plans;
mod reading;

pub use plans::{one_change, plan_of, refused};
pub use reading::place_of;
