//! Texts that cost as much as a text of 16 MiB or of 100,000 lines can.

use std::alloc::{AllocError, Global};

/// The most bytes of a text.
const MOST_BYTES: usize = 16_777_216;

/// The bytes that a line behind a head has room for.
const ROOM: usize = MOST_BYTES - 64;

/// The lines before the first actor's commands.
const HEAD: &[u8] = b"qfs 1\nlayout 16 2\nservers 9\nphase\nactor 1\n";

/// A hostile text.
#[derive(Clone, Copy)]
pub enum Hostile {
    /// One line of 16 MiB: what it begins with, and what follows it as often as it has room.
    OneLine(&'static [u8], &'static [u8]),
    /// A head, one line as often as there may be lines, and this line behind them.
    LastLine(&'static [u8], &'static [u8]),
    /// 64 actors, each with this line 1,561 times.
    Actors(&'static [u8]),
    /// A head and one line: what it begins with, and what follows it so many times.
    LongLine(&'static [u8], usize, &'static [u8]),
}

/// As many bytes as one put can have in digits.
const PUT: &[u8] = b"put /a hex \
0123456789abcdef0123456789abcdef0123456789abcdef0123456789abcdef\n";

/// Two paths of 32 names.
const DEEP: &[u8] = b"rename /a/a/a/a/a/a/a/a/a/a/a/a/a/a/a/a/a/a/a/a/a/a/a/a/a/a/a/a/a/a/a/a \
/b/b/b/b/b/b/b/b/b/b/b/b/b/b/b/b/b/b/b/b/b/b/b/b/b/b/b/b/b/b/b/b\n";

/// All of them, by name.
pub const NAMES: [(&str, Hostile); 14] = [
    ("remark", Hostile::OneLine(b"#", b"q")),
    ("word", Hostile::OneLine(b"q", b"q")),
    ("blanks", Hostile::OneLine(b"qfs 1", b" ")),
    ("count", Hostile::OneLine(b"qfs", b" 1")),
    ("number", Hostile::OneLine(b"qfs 1", b"0")),
    ("path", Hostile::LongLine(b"get ", ROOM / 2, b"/a")),
    ("hex", Hostile::LongLine(b"put /a hex ", ROOM / 2, b"0f")),
    ("order", Hostile::LongLine(b"order", ROOM / 8, b" 1x1 2x1")),
    ("empty", Hostile::LastLine(b"\n", b"q\n")),
    ("remarks", Hostile::LastLine(b"# 16 bytes here\n", b"q\n")),
    ("ticks", Hostile::Actors(b"tick\n")),
    ("puts", Hostile::Actors(PUT)),
    ("renames", Hostile::Actors(DEEP)),
    ("runs", Hostile::LongLine(b"order", 100, b" 1x4294967295")),
];

/// The text.
pub fn hostile_text(alloc: Global, hostile: Hostile) -> Result<Vec<u8>, AllocError> {
    let mut text = Vec::new(alloc);
    match hostile {
        Hostile::OneLine(first, more) => push_line(&mut text, first, more)?,
        Hostile::LastLine(line, last) => push_last(&mut text, line, last)?,
        Hostile::Actors(line) => push_actors(alloc, &mut text, line)?,
        Hostile::LongLine(first, times, more) => {
            text.extend_from_slice(HEAD)?;
            text.extend_from_slice(first)?;
            push_often(&mut text, times, more)?;
        }
    }
    Ok(text)
}

/// Appends this beginning, and the rest as often as 16 MiB have room for it.
fn push_line(text: &mut Vec<u8>, first: &[u8], more: &[u8]) -> Result<(), AllocError> {
    text.extend_from_slice(first)?;
    let room = MOST_BYTES.saturating_sub(first.len());
    push_often(text, room / more.len().max(1), more)
}

/// Appends a piece so many times.
fn push_often(text: &mut Vec<u8>, times: usize, piece: &[u8]) -> Result<(), AllocError> {
    for _time in 0..times {
        text.extend_from_slice(piece)?;
    }
    Ok(())
}

/// Appends a head of 5 lines, 99,994 lines like this one, and a last one.
fn push_last(text: &mut Vec<u8>, line: &[u8], last: &[u8]) -> Result<(), AllocError> {
    text.extend_from_slice(HEAD)?;
    push_often(text, 99_994, line)?;
    text.extend_from_slice(last)
}

/// Appends 64 actors, each with this line 1,561 times.
fn push_actors(alloc: Global, text: &mut Vec<u8>, line: &[u8]) -> Result<(), AllocError> {
    text.extend_from_slice(HEAD)?;
    push_often(text, 1_561, line)?;
    for actor in 2..=64u32 {
        let head = format!(in alloc; "actor {actor}\n")?;
        text.extend_from_slice(head.as_bytes())?;
        push_often(text, 1_561, line)?;
    }
    Ok(())
}
