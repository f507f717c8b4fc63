//! The words of a row.

use qfs_base::path::{Path, path_from};
use std::alloc::{AllocError, Global};

/// Why a row isn't taken.
#[derive(Drop)]
pub enum Bad {
    Row,
    NoMemory,
}

impl From<AllocError> for Bad {
    fn from(_error: AllocError) -> Bad {
        Bad::NoMemory
    }
}

/// The first word of a text, and what stands behind the blank that ends it.
pub fn cut(text: &str) -> (&str, &str) {
    match text.split_once(' ') {
        Some((word, rest)) => (word, rest),
        None => (text, ""),
    }
}

/// The number that a word spells.
pub fn number(word: &str) -> Result<u32, Bad> {
    match word.parse::<u32>() {
        Ok(number) => Ok(number),
        Err(_) => Err(Bad::Row),
    }
}

/// The number of 16 bits that a word spells.
pub fn small_number(word: &str) -> Result<u16, Bad> {
    match word.parse::<u16>() {
        Ok(number) => Ok(number),
        Err(_) => Err(Bad::Row),
    }
}

/// The path that a word spells.
pub fn path(alloc: Global, word: &str) -> Result<Path, Bad> {
    match path_from(alloc, word.as_bytes())? {
        Some(path) => Ok(path),
        None => Err(Bad::Row),
    }
}

/// The two paths that a text spells.
pub fn two_paths(alloc: Global, text: &str) -> Result<(Path, Path), Bad> {
    let (first, second) = cut(text);
    let first = path(alloc, first)?;
    let second = path(alloc, second)?;
    Ok((first, second))
}
