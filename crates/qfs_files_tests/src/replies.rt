//! What is asked at a place, and the line of its reply.

use crate::puts::recipe_of;
use crate::words::{Bad, cut, number, path, two_paths};
use qfs_base::command::{Excerpt, FileCommand, Range, Reply, ReplyLine, Shown};
use qfs_base::history::FileReply;
use qfs_base::lists::Bytes;
use qfs_base::numbers::Place;
use qfs_lines::push_replies;
use std::alloc::{AllocError, Global};

/// The command of these words, as scripts write it.
pub fn asked(alloc: Global, text: &str) -> Result<FileCommand, Bad> {
    let (word, rest) = cut(text);
    match word {
        "mkdir" => Ok(FileCommand::Mkdir(path(alloc, rest)?)),
        "rmdir" => Ok(FileCommand::Rmdir(path(alloc, rest)?)),
        "remove" => Ok(FileCommand::Remove(path(alloc, rest)?)),
        "rename" => rename(alloc, rest),
        "list" => Ok(FileCommand::List(path(alloc, rest)?)),
        "put" => put(alloc, rest),
        "get" => get(alloc, rest),
        _ => Err(Bad::Row),
    }
}

fn rename(alloc: Global, text: &str) -> Result<FileCommand, Bad> {
    let (from, to) = two_paths(alloc, text)?;
    Ok(FileCommand::Rename(from, to))
}

fn put(alloc: Global, text: &str) -> Result<FileCommand, Bad> {
    let (name, rest) = cut(text);
    let name = path(alloc, name)?;
    Ok(FileCommand::Put(name, recipe_of(alloc, rest)?))
}

fn get(alloc: Global, text: &str) -> Result<FileCommand, Bad> {
    let (name, rest) = cut(text);
    let name = path(alloc, name)?;
    Ok(FileCommand::Get(name, range(rest)?))
}

/// The range of these words, or none.
fn range(text: &str) -> Result<Option<Range>, Bad> {
    if text.is_empty() {
        return Ok(None);
    }
    let (from, count) = cut(text);
    let from = number(from)?;
    let count = number(count)?;
    Ok(Some(Range { from, count }))
}

/// The line of a reply, as the output of a run tells it. That a put is accepted has no line of its
/// own there: it is told as `accepted`.
pub fn line_of(
    alloc: Global,
    command: u16,
    place: Place,
    reply: FileReply,
) -> Result<Vec<u8>, AllocError> {
    match reply {
        FileReply::Done => told(alloc, command, Reply::Done { place }),
        FileReply::Names(names) => told(alloc, command, Reply::Listed { place, names }),
        FileReply::Refused(refusal) => told(alloc, command, Reply::Refused { place, refusal }),
        FileReply::Read(bytes) => {
            let read = excerpt(bytes);
            told(alloc, command, Reply::Read { place, read })
        }
        FileReply::Accepted => Vec::from_slice(alloc, b"accepted\n"),
    }
}

/// All bytes that were read. No row reads more than 32, of which the digest would be told.
fn excerpt(bytes: Bytes) -> Excerpt {
    Excerpt {
        len: (bytes.len() & 0xffff_ffff) as u32,
        shown: Shown::Whole(bytes),
    }
}

fn told(alloc: Global, command: u16, reply: Reply<Excerpt>) -> Result<Vec<u8>, AllocError> {
    let line = ReplyLine {
        actor: 1,
        command,
        reply,
    };
    let mut out = Vec::new(alloc);
    push_replies(alloc, &mut out, &[line])?;
    Ok(out)
}
