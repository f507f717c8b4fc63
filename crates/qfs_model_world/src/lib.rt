//! The world of a script as definitions: chunk servers, steps, orders, and what a run prints.
#![tactic(auto)]

mod frame;
mod given;
mod starts;
