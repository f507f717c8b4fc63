//! The tests of whole runs through the program's call. Expected values come from worked rows, and
//! never from the program.
#![tactic(auto)]

#[cfg(test)]
mod top;
