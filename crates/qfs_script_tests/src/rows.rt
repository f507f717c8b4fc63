//! The rows of the input, a line each:
//!
//! - `script TEXT`: the text is a script's, and so is what is printed of it;
//! - `same TEXT`: it is, and is printed as it stands;
//! - `LINE CAUSE TEXT`: the first bad line is this one, with this cause;
//! - `replay` before one of these: the text is read as one that is to be replayed;
//! - `bytes FROM TO` before one of these: the row holds with each byte from the first to the last
//!   one in the place of `\?`;
//! - `parts` and then `part TEXT`, line by line: the parts that `\1` to `\9` stand for from then
//!   on.

use crate::scripts::{Wanted, holds};
use crate::texts::text_of;
use std::alloc::{AllocError, Global};

/// What was seen of the rows.
#[derive(Drop)]
pub struct Rows {
    parts: Vec<Vec<u8>>,
    /// How many texts were scripts, with each byte of a row counted.
    pub scripts: u64,
    /// How many weren't.
    pub bad: u64,
}

/// A first word of a text, and what stands behind the blank that ends it.
fn split(text: &str) -> (&str, &str) {
    match text.split_once(' ') {
        Some((word, rest)) => (word, rest),
        None => (text, ""),
    }
}

/// A number, or 0 where a word is none.
fn number(word: &str) -> u32 {
    word.parse::<u32>().unwrap_or(0)
}

/// What a row wants, and its text.
fn wanted_of(row: &str) -> (Wanted<'_>, &str) {
    let (word, rest) = split(row);
    match word {
        "script" => (Wanted::Script, rest),
        "same" => (Wanted::Same, rest),
        _ => {
            let (cause, text) = split(rest);
            let line = number(word);
            (Wanted::Bad { line, cause }, text)
        }
    }
}

/// A row without the word `replay` before it, and whether it was there.
fn replays(row: &str) -> (bool, &str) {
    match row.strip_prefix("replay ") {
        Some(rest) => (true, rest),
        None => (false, row),
    }
}

impl Rows {
    /// No rows so far.
    pub fn new(alloc: Global) -> Rows {
        Rows {
            parts: Vec::new(alloc),
            scripts: 0,
            bad: 0,
        }
    }

    /// Takes a line, and says whether its row holds. A line that is empty or a comment has none.
    pub fn take(&mut self, alloc: Global, line: &str) -> Result<bool, AllocError> {
        let (word, rest) = split(line);
        match word {
            "" | "#" => Ok(true),
            "parts" => {
                self.parts.clear();
                Ok(true)
            }
            "part" => {
                self.parts.push(text_of(alloc, &[], 0, rest)?)?;
                Ok(true)
            }
            "bytes" => self.take_range(alloc, rest),
            _ => self.take_one(alloc, 0, line),
        }
    }

    /// Takes a row for each byte of a range.
    fn take_range(&mut self, alloc: Global, text: &str) -> Result<bool, AllocError> {
        let (from, rest) = split(text);
        let (to, row) = split(rest);
        let mut all = true;
        for byte in number(from)..=number(to) {
            if !self.take_one(alloc, (byte & 0xff) as u8, row)? {
                all = false;
            }
        }
        Ok(all)
    }

    /// Takes a row with this byte in its place.
    fn take_one(&mut self, alloc: Global, byte: u8, row: &str) -> Result<bool, AllocError> {
        let (replays, row) = replays(row);
        let (wanted, row) = wanted_of(row);
        self.count(wanted);
        let text = text_of(alloc, self.parts.as_slice(), byte, row)?;
        holds(alloc, replays, wanted, text.as_slice())
    }

    /// Counts a text.
    fn count(&mut self, wanted: Wanted<'_>) {
        match wanted {
            Wanted::Bad { .. } => self.bad = self.bad.saturating_add(1),
            _ => self.scripts = self.scripts.saturating_add(1),
        }
    }
}
