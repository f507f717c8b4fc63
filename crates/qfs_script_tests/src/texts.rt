//! Texts as rows write them. A text is in pieces with `|` between them, and a piece with a number
//! and `*` before it stands there so many times. Behind `\`, `n` is the end of a line, `x` and two
//! digits are a byte, `?` is the byte of the row, a digit is a part, and any other letter is itself.

use std::alloc::{AllocError, Global};

/// Where the reading of a piece is.
#[derive(Clone, Copy)]
enum At {
    Plain,
    /// Behind `\`.
    Escape,
    /// Behind `\x`, and behind its first digit.
    High,
    Low(u8),
}

/// The value of a hexadecimal digit, or 0.
fn digit(letter: char) -> u8 {
    match letter.to_digit(16) {
        Some(value) => (value & 0x0f) as u8,
        None => 0,
    }
}

/// The byte of a letter: rows are plain text.
fn byte_of(letter: char) -> u8 {
    (letter as u32 & 0xff) as u8
}

/// The part of a digit, or nothing.
fn part_of(parts: &[Vec<u8>], letter: char) -> &[u8] {
    let number = digit(letter) as usize;
    if number == 0 {
        return &[];
    }
    match parts.get(number - 1) {
        Some(part) => part.as_slice(),
        None => &[],
    }
}

/// Puts what a letter behind `\` stands for at the end.
fn put_escape(
    out: &mut Vec<u8>,
    parts: &[Vec<u8>],
    byte: u8,
    letter: char,
) -> Result<At, AllocError> {
    match letter {
        'x' => return Ok(At::High),
        'n' => out.push(b'\n')?,
        '?' => out.push(byte)?,
        '1'..='9' => out.extend_from_slice(part_of(parts, letter))?,
        _ => out.push(byte_of(letter))?,
    }
    Ok(At::Plain)
}

/// Takes one letter of a piece.
fn put_letter(
    out: &mut Vec<u8>,
    parts: &[Vec<u8>],
    byte: u8,
    at: At,
    letter: char,
) -> Result<At, AllocError> {
    match at {
        At::Plain if letter == '\\' => Ok(At::Escape),
        At::Plain => {
            out.push(byte_of(letter))?;
            Ok(At::Plain)
        }
        At::Escape => put_escape(out, parts, byte, letter),
        At::High => Ok(At::Low(digit(letter))),
        At::Low(high) => {
            out.push((high << 4) | digit(letter))?;
            Ok(At::Plain)
        }
    }
}

/// The bytes of a piece.
fn piece_of(
    alloc: Global,
    parts: &[Vec<u8>],
    byte: u8,
    piece: &str,
) -> Result<Vec<u8>, AllocError> {
    let mut out = Vec::new(alloc);
    let mut at = At::Plain;
    for letter in piece.chars() {
        at = put_letter(&mut out, parts, byte, at, letter)?;
    }
    Ok(out)
}

/// How many times a piece stands there, and the piece.
fn times(piece: &str) -> (u32, &str) {
    let Some((word, rest)) = piece.split_once('*') else {
        return (1, piece);
    };
    match word.parse::<u32>() {
        Ok(times) => (times, rest),
        Err(_) => (1, piece),
    }
}

/// The bytes of a text, with this byte and these parts in their places.
pub fn text_of(
    alloc: Global,
    parts: &[Vec<u8>],
    byte: u8,
    text: &str,
) -> Result<Vec<u8>, AllocError> {
    let mut out = Vec::new(alloc);
    for piece in text.split('|') {
        let (times, piece) = times(piece);
        let piece = piece_of(alloc, parts, byte, piece)?;
        put_times(&mut out, times, piece.as_slice())?;
    }
    Ok(out)
}

/// Puts bytes at the end so many times.
fn put_times(out: &mut Vec<u8>, times: u32, piece: &[u8]) -> Result<(), AllocError> {
    for _ in 0..times {
        out.extend_from_slice(piece)?;
    }
    Ok(())
}
