//! The tests of devices, disks, sources and sinks in memory: calls that fail, through the traits'
//! bounds.
#![tactic(auto)]

#[cfg(test)]
mod devices;
