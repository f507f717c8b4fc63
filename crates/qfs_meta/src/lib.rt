//! The metaserver in memory, over sorted lists: which requests it refuses, and what the others
//! change.
#![tactic(auto)]

mod aborting;
mod census;
mod closing;
mod condemning;
mod creating;
mod gets;
mod granting;
mod leases;
mod listed;
mod loads;
mod meta;
mod names;
mod puts;
mod requests;
mod rows;
mod servers;
mod slots;
mod turn;

pub use meta::Meta;
