//! The rows of the input, a line each:
//!
//! - `record BYTES` and `image BYTES`: the bytes are one;
//! - `no-record BYTES` and `no-image BYTES`: no front of them is one;
//! - `parts` and then `part BYTES`, line by line: the parts of an image that later rows change;
//! - `image-with NUMBER BYTES` and `no-image-with NUMBER BYTES`: these parts are one, or no front
//!   of them is one, with bytes in place of the part of this number. The first part has number 1,
//!   and no part has number 0.

use crate::digits::bytes_of;
use crate::fronts::{Kind, is_none, is_one};
use std::alloc::{AllocError, Global};

/// What was seen of the rows.
#[derive(Drop)]
pub struct Rows {
    parts: Vec<Vec<u8>>,
    /// How many rows were of records.
    pub records: u64,
    /// How many rows were of images.
    pub images: u64,
}

impl Rows {
    /// No rows so far.
    pub fn new(alloc: Global) -> Rows {
        Rows {
            parts: Vec::new(alloc),
            records: 0,
            images: 0,
        }
    }

    /// Takes a line, and says whether its row holds. A line that is empty or a comment has none.
    pub fn take(&mut self, alloc: Global, line: &str) -> Result<bool, AllocError> {
        let (word, text) = split(line);
        let wanted = !word.starts_with("no-");
        match word {
            "" | "#" => Ok(true),
            "record" | "no-record" => {
                self.records = self.records.saturating_add(1);
                holds(alloc, Kind::Record, wanted, &bytes_of(alloc, text)?)
            }
            "image" | "no-image" => {
                self.images = self.images.saturating_add(1);
                holds(alloc, Kind::Image, wanted, &bytes_of(alloc, text)?)
            }
            "image-with" | "no-image-with" => {
                self.images = self.images.saturating_add(1);
                let image = image_with(alloc, self.parts.as_slice(), text)?;
                holds(alloc, Kind::Image, wanted, &image)
            }
            "parts" => {
                self.parts.clear();
                Ok(true)
            }
            "part" => {
                self.parts.push(bytes_of(alloc, text)?)?;
                Ok(true)
            }
            _ => Ok(false),
        }
    }
}

/// The first word of a text, and what stands behind the blank that ends it.
fn split(text: &str) -> (&str, &str) {
    match text.split_once(' ') {
        Some((word, rest)) => (word, rest),
        None => (text, ""),
    }
}

/// Whether the bytes are one of this kind as it is wanted.
fn holds(alloc: Global, kind: Kind, wanted: bool, bytes: &[u8]) -> Result<bool, AllocError> {
    if wanted {
        is_one(alloc, kind, bytes)
    } else {
        is_none(alloc, kind, bytes)
    }
}

/// The parts behind each other, with the bytes of the text in place of the part that it names.
/// Where it names none, nothing is replaced.
fn image_with(alloc: Global, parts: &[Vec<u8>], text: &str) -> Result<Vec<u8>, AllocError> {
    let (number, text) = split(text);
    let number = number.parse::<usize>().unwrap_or(0);
    let replacement = bytes_of(alloc, text)?;
    let mut image = Vec::new(alloc);
    for (before, part) in parts.iter().enumerate() {
        let bytes = if before + 1 == number {
            &replacement
        } else {
            part
        };
        image.extend_from_slice(bytes.as_slice())?;
    }
    Ok(image)
}
