//! When a device stands for a chunk server, as definitions.
#![tactic(auto)]
