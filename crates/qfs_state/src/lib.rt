//! The metaserver's state over tables: the namespace, the slots of blocks and the condemned
//! copies, the leases, the servers with their loads, and the actors that were dropped. Requests
//! read it; one function a change changes it.
#![tactic(auto)]

mod copies;
mod files;
mod leases;
mod make;
mod prepared;
mod reading;
mod room;
mod servers;
mod slots;
mod state;

pub use prepared::{Plan, Prepared, Unplanned};
pub use state::State;
