//! The tests of what a chunk server keeps: chunk records of both versions, and servers over devices
//! in memory. Expected values come from worked rows and tables, and never from the program.
#![tactic(auto)]

#[cfg(test)]
mod heads;
#[cfg(test)]
mod records;
#[cfg(test)]
mod servers;
