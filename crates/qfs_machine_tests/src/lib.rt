//! The tests of puts, gets and actors among nodes that answer as a test says. Expected values come
//! from worked rows, and never from the program.
#![tactic(auto)]

#[cfg(test)]
mod actor;
#[cfg(test)]
mod nodes;
#[cfg(test)]
mod reader;
#[cfg(test)]
mod writer;
