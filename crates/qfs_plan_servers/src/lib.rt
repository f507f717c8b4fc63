//! Plans of the requests that say how servers stand, and of the clock. Each request reads the state
//! and tells what it changes and what it answers, or why there is no plan.
#![tactic(auto)]

mod clock;
mod hello;
mod standing;

pub use clock::plan_tick;
pub use hello::plan_hello;
pub use standing::{plan_bye, plan_hibernate, plan_leave, plan_left_on};
