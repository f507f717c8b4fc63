//! The lines of a script's text, the words of a line, and the kinds of words: numbers, paths,
//! hexadecimal digits and runs. Each call answers as the grammar of scripts says.
#![tactic(auto)]

mod counts;
mod hexadecimal;
mod limits;
mod lines;
mod numbers;
mod paths;
mod refusal;
mod runs;

pub use counts::{Pair, Quadruple, Triple, four_words, no_word, one_word, three_words, two_words};
pub use hexadecimal::bytes_in;
pub use limits::{MOST_ACTORS, MOST_TICKS};
pub use lines::{Lines, Words, is_text};
pub use numbers::{number_in, stripe_in};
pub use paths::path_in;
pub use refusal::Refusal;
pub use runs::run_in;
