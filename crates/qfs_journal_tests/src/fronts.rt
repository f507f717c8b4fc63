//! Records and images at the front of bytes.

use qfs_image::{read_image, write_image};
use qfs_journal::{read_log, write_log};
use std::alloc::{AllocError, Global};

/// What is read at the front of bytes.
#[derive(Clone, Copy)]
pub enum Kind {
    /// The record of a request.
    Record,
    /// The image of a metaserver's state.
    Image,
}

/// What a reader finds at the front of bytes.
#[derive(Clone, Copy, PartialEq, Eq)]
enum Found {
    Nothing,
    /// So many bytes, and the same ones are written for what was read.
    Front(usize),
    /// Bytes other than those that are written for what was read.
    Other,
}

/// Whether no front of the bytes is one.
pub fn is_none(alloc: Global, kind: Kind, bytes: &[u8]) -> Result<bool, AllocError> {
    Ok(front_of(alloc, kind, bytes)? == Found::Nothing)
}

/// Whether the bytes are one in all the ways that are tried.
pub fn is_one(alloc: Global, kind: Kind, bytes: &[u8]) -> Result<bool, AllocError> {
    Ok(
        is_whole(alloc, kind, bytes)?
            && has_no_front(alloc, kind, bytes)?
            && keeps_changes(alloc, kind, bytes)?,
    )
}

/// Whether the bytes are read whole, also before another byte.
fn is_whole(alloc: Global, kind: Kind, bytes: &[u8]) -> Result<bool, AllocError> {
    let wanted = Found::Front(bytes.len());
    let mut longer = Vec::from_slice(alloc, bytes)?;
    longer.push(0x0f)?;
    Ok(front_of(alloc, kind, bytes)? == wanted && front_of(alloc, kind, &longer)? == wanted)
}

/// Whether no shorter front of the bytes is one.
fn has_no_front(alloc: Global, kind: Kind, bytes: &[u8]) -> Result<bool, AllocError> {
    for length in 0..bytes.len() {
        if !is_none(alloc, kind, &bytes[..length])? {
            return Ok(false);
        }
    }
    Ok(true)
}

/// Whether the bytes with one of them changed are always none, or written again the same.
fn keeps_changes(alloc: Global, kind: Kind, bytes: &[u8]) -> Result<bool, AllocError> {
    let mut changed = Vec::from_slice(alloc, bytes)?;
    for (at, &byte) in bytes.iter().enumerate() {
        for change in [0x00, 0xff, byte ^ 0x01, byte ^ 0x80] {
            put(change, at, &mut changed);
            if front_of(alloc, kind, &changed)? == Found::Other {
                return Ok(false);
            }
        }
        put(byte, at, &mut changed);
    }
    Ok(true)
}

/// Sets the byte at a place, if there is one.
fn put(byte: u8, at: usize, bytes: &mut [u8]) {
    if let Some(place) = bytes.get_mut(at) {
        *place = byte;
    }
}

/// What is found at the front of bytes.
fn front_of(alloc: Global, kind: Kind, bytes: &[u8]) -> Result<Found, AllocError> {
    match kind {
        Kind::Record => record_of(alloc, bytes),
        Kind::Image => image_of(alloc, bytes),
    }
}

fn record_of(alloc: Global, bytes: &[u8]) -> Result<Found, AllocError> {
    let Some(read) = read_log(alloc, bytes)? else {
        return Ok(Found::Nothing);
    };
    let mut out = Vec::new(alloc);
    write_log(read.actor, &read.request, &mut out)?;
    Ok(compared(&out, &bytes[..read.length]))
}

fn image_of(alloc: Global, bytes: &[u8]) -> Result<Found, AllocError> {
    let Some(read) = read_image(alloc, bytes)? else {
        return Ok(Found::Nothing);
    };
    let mut out = Vec::new(alloc);
    write_image(&read.image, &mut out)?;
    Ok(compared(&out, &bytes[..read.length]))
}

/// What was found where these bytes were read, and those written for what was read.
fn compared(written: &[u8], read: &[u8]) -> Found {
    if written == read {
        Found::Front(read.len())
    } else {
        Found::Other
    }
}
