//! Reads the checkpoint on a disk and the records of its log off the disk's bytes.
ghost use Rattle.std.specs.Prelude.{◌≤◌, length};
ghost use Rattle.qfs_checkpoint.specs.Reading.{ReadsDisk, ReadsImage, ReadsLog};

use crate::errors::LoadError;
use qfs_base::image::MetaImage;
use qfs_base::numbers::ActorId;
use qfs_base::request::MetaRequest;
use qfs_image::read_image;
use qfs_journal::read_log;
use qfs_record::u64_at;
use std::alloc::Global;

// A gate is open where its byte is this one.
const OPEN: u8 = 1;

// Where the epoch, the length of the image and the image stand.
const EPOCH_AT: u64 = 1;

const SIZE_AT: usize = 9;

const IMAGE_AT: usize = 17;

/// The records of a log, in their order.
#[derive(Drop)]
pub struct LogRecords {
    /// Who asked, and the request.
    pub records: Vec<(ActorId, MetaRequest)>,
    /// The place of the closed gate that ends the log.
    pub gate: usize,
}

/// A checkpoint and the records of the log behind it.
#[derive(Drop)]
pub struct Checkpoint {
    pub image: MetaImage,
    pub log: LogRecords,
}

/// Reads the checkpoint and the log on the left or the right disk, from the disk's bytes, whose
/// gate is open. `BadLog` tells the offset of the first part that is out of its grammar: the epoch,
/// the length of the image, the image, a record, or where the bytes end with no closed gate behind
/// the log.
pub fn read_checkpoint(alloc: Global, right: bool, bytes: &[u8]) -> Result<Checkpoint, LoadError>
    ensures { ReadsDisk right bytes.now result }
{
    if bytes.len() < SIZE_AT {
        return Err(LoadError::BadLog {
            right,
            offset: EPOCH_AT,
        });
    }
    let Some((size, rest)) = u64_at(&bytes[SIZE_AT..]) else {
        return Err(LoadError::BadLog {
            right,
            offset: SIZE_AT as u64,
        });
    };
    if (rest.len() as u64) < size {
        return Err(LoadError::BadLog {
            right,
            offset: IMAGE_AT as u64,
        });
    }
    let size = size as usize;
    let image = image_of(alloc, right, &rest[..size])?;
    let log = records_behind(alloc, right, bytes, IMAGE_AT + size)?;
    Ok(Checkpoint { image, log })
}

// The image that these bytes spell, with none left over.
fn image_of(alloc: Global, right: bool, bytes: &[u8]) -> Result<MetaImage, LoadError>
    ensures { ReadsImage right bytes.now result }
{
    let bad = LoadError::BadLog {
        right,
        offset: IMAGE_AT as u64,
    };
    let Some(read) = read_image(alloc, bytes)? else {
        return Err(bad);
    };
    if read.length < bytes.len() {
        return Err(bad);
    }
    Ok(read.image)
}

// The records of the log that starts here, up to its first closed gate.
fn records_behind(
    alloc: Global,
    right: bool,
    bytes: &[u8],
    start: usize,
) -> Result<LogRecords, LoadError>
    requires { start ≤ length bytes.now }
    ensures { ReadsLog right bytes.now start result }
{
    let mut records = Vec::new(alloc);
    let mut at = start;
    while at < bytes.len() {
        if bytes[at] != OPEN {
            return Ok(LogRecords { records, gate: at });
        }
        let Some(one) = read_log(alloc, &bytes[at + 1..])? else {
            return Err(LoadError::BadLog {
                right,
                offset: at as u64 + 1,
            });
        };
        records.push((one.actor, one.request))?;
        at += 1 + one.length;
    }
    Err(LoadError::BadLog {
        right,
        offset: at as u64,
    })
}
