//! Plans of the requests on slots: what ends a recovery or move, sweeps, and the grants of a put.
//! Each request reads the state and tells what it changes and what it answers, or why there is no
//! plan.
#![tactic(auto)]

mod barred;
mod ending;
mod granting;
mod settling;
mod sweeps;

pub use granting::plan_grant;
pub use settling::{plan_abandon, plan_confirm};
pub use sweeps::{plan_order, plan_swept};
