//! What is wanted of a get, and where it stands between two of its requests.

use crate::read_so_far::ReadSoFar;
use crate::sources::Sources;
use qfs_base::chunk::Copy;
use qfs_base::command::{Excerpt, Range, Reply};
use qfs_base::layout::Window;
use qfs_base::mask::Mask;
use qfs_base::numbers::{LeaseId, Place, Slot};
use qfs_base::path::Path;
use qfs_base::reply::{Opened, TreeRefusal};
use qfs_machine::Ending;
use qfs_stripe::{BlockWindows, Layout};

/// What is wanted: a range of the bytes of the file at a path.
#[derive(Drop)]
pub struct Get {
    pub layout: Layout,
    pub path: Path,
    pub range: Range,
}

/// An attempt at a get: a file under its lease, of which the bytes from `from` up to `to` are
/// wanted. So many attempts, `more`, may follow where it finds too few slots of a block.
#[derive(Drop)]
pub struct Attempt {
    pub opened: Opened,
    pub from: u32,
    pub to: u32,
    pub more: u32,
    /// The bytes that were read.
    pub got: ReadSoFar,
    /// What the slots gave in the present window, one part for each of the nine.
    pub nine: Vec<u8>,
    /// Room for one part more, which is made anew.
    pub spare: Vec<u8>,
}

/// Where an attempt reads: a slot of a window of a block.
#[derive(Drop)]
pub struct Position {
    pub block: u32,
    pub window: Window,
    /// The windows of the block that come behind this one.
    pub windows: BlockWindows,
    /// Where the slots of the block can be read.
    pub sources: Sources,
    pub slot: Slot,
    /// The copy of that slot.
    pub copy: Copy,
    /// The slots that gave their bytes in this window.
    pub have: Mask,
}

/// How a get ends.
#[derive(Drop)]
pub enum GetEnding {
    /// It has read its range.
    Read {
        place: Place,
        got: ReadSoFar,
    },
    /// Too few slots of a block can be read, and no attempt is left.
    TooFew {
        place: Place,
        block: u32,
        sources: Sources,
    },
    /// The name tree refuses to open the file.
    Refused {
        place: Place,
        refusal: TreeRefusal,
    },
    /// It ends as any command may.
    Common(Ending),
}

/// What a get waits for.
#[derive(Drop)]
pub enum Stage {
    /// Its file isn't open yet; so many attempts may follow the one that opens it.
    Opening { more: u32 },
    /// It reads a slot.
    Reading(Attempt, Position),
    /// It gives its lease back, and then it ends; its report is there once the request is prepared.
    Releasing(LeaseId, GetEnding, Option<Reply<Excerpt>>),
    /// It gives its lease back and opens its file again, after which `more` attempts may follow.
    Retrying { lease: LeaseId, more: u32 },
    /// It has ended, and its report is kept so.
    Ended(GetEnding, Reply<Excerpt>),
}
