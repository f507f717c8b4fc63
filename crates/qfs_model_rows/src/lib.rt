//! Worked runs: the definitions give exactly what was worked out by hand. Each run is a script with
//! an order of steps, and a function that does nothing, whose contract says that the order fits the
//! script and is whole, and what the run prints.
#![tactic(auto)]

mod attempts;
mod audits;
mod drawn_files;
mod drawn_rules;
mod drawn_servers;
mod failures;
mod given_orders;
mod leases;
mod meanings;
mod plain_paths;
mod promised;
mod refusals;
mod repairs;
mod restarts;
mod upgrades;
