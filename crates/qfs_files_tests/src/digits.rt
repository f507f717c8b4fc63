//! Bytes written as hexadecimal digits, with blanks between them.

use std::alloc::{AllocError, Global};

/// The bytes of a text of digits. Its other letters are passed over, and so is a digit too many.
pub fn bytes_of(alloc: Global, text: &str) -> Result<Vec<u8>, AllocError> {
    let mut bytes = Vec::new(alloc);
    let mut high = None;
    for letter in text.chars() {
        let Some(digit) = letter.to_digit(16) else {
            continue;
        };
        let digit = (digit & 0x0f) as u8;
        match high {
            None => high = Some(digit),
            Some(first) => {
                bytes.push((first << 4) | digit)?;
                high = None;
            }
        }
    }
    Ok(bytes)
}
