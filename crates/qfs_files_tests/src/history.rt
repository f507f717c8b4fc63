//! The entries of a history, as the output of a run tells them.

use crate::words::{Bad, cut, number, path, small_number, two_paths};
use qfs_base::history::Entry;
use qfs_base::path::Path;
use std::alloc::Global;

/// The entry of these words.
pub fn entry_of(alloc: Global, text: &str) -> Result<Entry, Bad> {
    let (word, rest) = cut(text);
    match word {
        "mkdir" => Ok(Entry::Mkdir(path(alloc, rest)?)),
        "rmdir" => Ok(Entry::Rmdir(path(alloc, rest)?)),
        "created" => created(alloc, rest),
        "closed" => closed(rest),
        "aborted" => Ok(Entry::Aborted(number(rest)?)),
        "removed" => Ok(Entry::Removed(path(alloc, rest)?)),
        "renamed" => renamed(alloc, rest),
        _ => Err(Bad::Row),
    }
}

/// Behind `created`: a file and its path.
fn created(alloc: Global, text: &str) -> Result<Entry, Bad> {
    let (file, rest) = cut(text);
    let file = number(file)?;
    let path: Path = path(alloc, rest)?;
    Ok(Entry::Created(file, path))
}

/// Behind `closed`: a file, and the actor and the command that closed it, behind `by`.
fn closed(text: &str) -> Result<Entry, Bad> {
    let (file, rest) = cut(text);
    let (_by, rest) = cut(rest);
    let file = number(file)?;
    let (actor, command) = put_named(rest)?;
    Ok(Entry::Closed(file, actor, command))
}

/// An actor and the number of its command.
fn put_named(text: &str) -> Result<(u16, u16), Bad> {
    let (actor, command) = cut(text);
    let actor = small_number(actor)?;
    let command = small_number(command)?;
    Ok((actor, command))
}

/// Behind `renamed`: the old path and the new one.
fn renamed(alloc: Global, text: &str) -> Result<Entry, Bad> {
    let (from, to) = two_paths(alloc, text)?;
    Ok(Entry::Renamed(from, to))
}
