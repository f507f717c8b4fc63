//! The entries of the file history in their spellings: the number of the kind of entry, and its
//! fields.
ghost use Rattle.std.specs.Prelude.{◌≡◌, ◌++◌, OnOk, OnErr, IfOk};
ghost use Rattle.std.specs.Int.{w32};
ghost use Rattle.qfs_base.specs.declared.history.Entry.TheVariants as Wrote;
ghost use Rattle.qfs_model_disks.specs.Image.{closing, creating, entry, entry_at};
ghost use Rattle.qfs_model_disks.specs.Image.{entry_by, entry_reader, entry_text, reads_entry};
ghost use Rattle.qfs_model_disks.specs.Values.{path};
ghost use Rattle.qfs_record.specs.Part.{number, pair};
ghost use Rattle.qfs_spelling.specs.Fronts.{Extends, front_of, numbered};

use crate::spelled::Spelled;
use crate::values::{from_one_at, path_at, put_of_path, put_path};
use qfs_base::history::Entry;
use qfs_base::numbers::{ActorId, FileId};
use qfs_base::path::Path;
use qfs_record::{put_u8, put_u16, put_u32, u16_at, u32_at};
use std::alloc::{AllocError, Global};

impl Spelled for Entry {
    ghost part = { entry };

    #[tactic(auto, unfolding(qfs_model_disks::specs::Image::entry_text))]
    fn put(&self, out: &mut Vec<u8>) -> Result<(), AllocError> {
        match self {
            Entry::Mkdir(path) => put_of_path(1, path, out),
            Entry::Rmdir(path) => put_of_path(2, path, out),
            Entry::Created(file, path) => put_created(*file, path, out),
            Entry::Closed(file, actor, command) => put_closed(*file, *actor, *command, out),
            Entry::Aborted(file) => put_aborted(*file, out),
            Entry::Removed(path) => put_of_path(6, path, out),
            Entry::Renamed(from, to) => put_renamed(from, to, out),
        }
    }

    #[tactic(auto, unfolding(qfs_model_disks::specs::Image::entry_at))]
    fn read_at(alloc: Global, bytes: &[u8]) -> Result<Option<(Entry, &[u8])>, AllocError> {
        match bytes {
            [kind, fields @ ..] => entry_of(alloc, *kind, fields),
            [] => Ok(None),
        }
    }
}

/// The entry of this kind whose fields are at the front of bytes.
#[tactic(auto, unfolding(qfs_model_disks::specs::Image::entry_by, qfs_model_disks::specs::Image::entry_reader))]
fn entry_of(alloc: Global, kind: u8, bytes: &[u8]) -> Result<Option<(Entry, &[u8])>, AllocError>
    ensures { IfOk result (λ found. front_of found ≡ entry_by (entry_reader kind) bytes.now) }
{
    match kind {
        1 => mkdir_at(alloc, bytes),
        2 => rmdir_at(alloc, bytes),
        3 => created_at(alloc, bytes),
        4 => Ok(closed_at(bytes)),
        5 => Ok(aborted_at(bytes)),
        6 => removed_at(alloc, bytes),
        7 => renamed_at(alloc, bytes),
        _ => Ok(None),
    }
}

/// Puts a Created.
fn put_created(file: FileId, names: &Path, out: &mut Vec<u8>) -> Result<(), AllocError>
    ensures ok { OnOk result (out.new.items
        ≡ out.old.items ++ (numbered creating).text (3, (file, names.now))) }
    ensures err { OnErr result (Extends out.old.items out.new.items) }
{
    put_u8(3, out)?;
    put_u32(file, out)?;
    put_path(names, out)
}

/// Puts a Closed.
fn put_closed(
    file: FileId,
    actor: ActorId,
    command: u16,
    out: &mut Vec<u8>,
) -> Result<(), AllocError>
    ensures ok { OnOk result (out.new.items
        ≡ out.old.items ++ (numbered closing).text (4, (file, (actor, command)))) }
    ensures err { OnErr result (Extends out.old.items out.new.items) }
{
    put_u8(4, out)?;
    put_u32(file, out)?;
    put_u16(actor, out)?;
    put_u16(command, out)
}

/// Puts an Aborted.
fn put_aborted(file: FileId, out: &mut Vec<u8>) -> Result<(), AllocError>
    ensures ok { OnOk result (out.new.items
        ≡ out.old.items ++ (numbered (number w32)).text (5, file)) }
    ensures err { OnErr result (Extends out.old.items out.new.items) }
{
    put_u8(5, out)?;
    put_u32(file, out)
}

/// Puts a Renamed.
fn put_renamed(from: &Path, to: &Path, out: &mut Vec<u8>) -> Result<(), AllocError>
    ensures ok { OnOk result (out.new.items
        ≡ out.old.items ++ (numbered (pair path path)).text (7, (from.now, to.now))) }
    ensures err { OnErr result (Extends out.old.items out.new.items) }
{
    put_u8(7, out)?;
    put_path(from, out)?;
    put_path(to, out)
}

/// The fields of a Mkdir.
fn mkdir_at(alloc: Global, bytes: &[u8]) -> Result<Option<(Entry, &[u8])>, AllocError>
    ensures { IfOk result (λ found. front_of found
        ≡ reads_entry path (λ p. Wrote.Mkdir p) bytes.now) }
{
    let Some((path, rest)) = path_at(alloc, bytes)? else {
        return Ok(None);
    };
    Ok(Some((Entry::Mkdir(path), rest)))
}

/// The fields of an Rmdir.
fn rmdir_at(alloc: Global, bytes: &[u8]) -> Result<Option<(Entry, &[u8])>, AllocError>
    ensures { IfOk result (λ found. front_of found
        ≡ reads_entry path (λ p. Wrote.Rmdir p) bytes.now) }
{
    let Some((path, rest)) = path_at(alloc, bytes)? else {
        return Ok(None);
    };
    Ok(Some((Entry::Rmdir(path), rest)))
}

/// The fields of a Created.
fn created_at(alloc: Global, bytes: &[u8]) -> Result<Option<(Entry, &[u8])>, AllocError>
    ensures { IfOk result (λ found. front_of found
        ≡ reads_entry creating (λ v. Wrote.Created v.0 v.1) bytes.now) }
{
    let Some((file, rest)) = u32_at(bytes) else {
        return Ok(None);
    };
    let Some((path, rest)) = path_at(alloc, rest)? else {
        return Ok(None);
    };
    Ok(Some((Entry::Created(file, path), rest)))
}

/// The fields of a Closed.
fn closed_at(bytes: &[u8]) -> Option<(Entry, &[u8])>
    ensures { front_of result ≡ reads_entry closing (λ v. Wrote.Closed v.0 v.1.0 v.1.1) bytes.now }
{
    let (file, rest) = u32_at(bytes)?;
    let (actor, rest) = from_one_at(rest)?;
    let (command, rest) = u16_at(rest)?;
    Some((Entry::Closed(file, actor, command), rest))
}

/// The fields of an Aborted.
fn aborted_at(bytes: &[u8]) -> Option<(Entry, &[u8])>
    ensures { front_of result ≡ reads_entry (number w32) (λ file. Wrote.Aborted file) bytes.now }
{
    let (file, rest) = u32_at(bytes)?;
    Some((Entry::Aborted(file), rest))
}

/// The fields of a Removed.
fn removed_at(alloc: Global, bytes: &[u8]) -> Result<Option<(Entry, &[u8])>, AllocError>
    ensures { IfOk result (λ found. front_of found
        ≡ reads_entry path (λ p. Wrote.Removed p) bytes.now) }
{
    let Some((path, rest)) = path_at(alloc, bytes)? else {
        return Ok(None);
    };
    Ok(Some((Entry::Removed(path), rest)))
}

/// The fields of a Renamed.
fn renamed_at(alloc: Global, bytes: &[u8]) -> Result<Option<(Entry, &[u8])>, AllocError>
    ensures { IfOk result (λ found. front_of found
        ≡ reads_entry (pair path path) (λ v. Wrote.Renamed v.0 v.1) bytes.now) }
{
    let Some((from, rest)) = path_at(alloc, bytes)? else {
        return Ok(None);
    };
    let Some((to, rest)) = path_at(alloc, rest)? else {
        return Ok(None);
    };
    Ok(Some((Entry::Renamed(from, to), rest)))
}
