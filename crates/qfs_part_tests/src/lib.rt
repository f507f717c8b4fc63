//! The tests of the parts that stand alone: lists, layouts, recipes, paths, numbers in scripts. A
//! crate with tests is proved twice, so they stand apart from the crates that they test. Expected
//! values come from worked rows and tables, and never from the program.
#![tactic(auto)]

#[cfg(test)]
mod layout;
#[cfg(test)]
mod lists;
#[cfg(test)]
mod paths;
#[cfg(test)]
mod recipe;
#[cfg(test)]
mod script;
