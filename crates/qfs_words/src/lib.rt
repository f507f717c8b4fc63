//! The words by which the lines of a script begin, as the grammar of scripts spells them.
#![tactic(auto)]

mod words;

pub use words::{CommandWord, FirstWord, first_word};
