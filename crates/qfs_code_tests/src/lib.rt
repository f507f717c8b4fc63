//! The tests of the field and of the code: known values, and every way to restore a slot from six
//! others. Expected values come from worked rows and tables, and never from the program.
#![tactic(auto)]

#[cfg(test)]
mod code;
#[cfg(test)]
mod field;
