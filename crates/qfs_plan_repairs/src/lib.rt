//! Plans of the requests that grant recoveries and moves, and what they share: a lease on the file
//! and a grant of one of its slots under it. Each request reads the state and tells what it changes
//! and what it answers, or why there is no plan.
#![tactic(auto)]

mod barred;
mod evacuation;
mod granting;
mod moves;
mod repairs;
mod sources;

pub use evacuation::plan_evacuate;
pub use granting::{plan_chosen, plan_leased, plan_recovery};
pub use moves::plan_move;
pub use repairs::plan_recover;
