//! What is put, and where a put stands between two of its requests.

ghost use Rattle.std.specs.Prelude.{◌≡◌, ◌≤◌, length};
ghost use Rattle.qfs_base.specs.Layout.{blocks_of};
ghost use Rattle.qfs_base.specs.Sizes.{MOST_FILE_BYTES};
ghost use Rattle.qfs_model_actor.specs.Shown.{kept_report};
ghost use Rattle.qfs_writer.specs.Rest.{bytes_put, report_of_put};

use qfs_base::chunk::Copy;
use qfs_base::command::{Excerpt, Reply};
use qfs_base::numbers::{FileId, Place, Slot};
use qfs_base::path::Path;
use qfs_base::recipe::Recipe;
use qfs_base::reply::TreeRefusal;
use qfs_machine::Ending;
use qfs_recipe::RecipeCalls;
use qfs_stripe::{Layout, LayoutCalls};

/// What is put: a new file's path and bytes. Its put is the actor's command of this `number`,
/// from 1.
#[derive(Drop)]
pub struct Put {
    pub layout: Layout,
    pub number: u16,
    pub path: Path,
    pub recipe: Recipe,
}

impl Put {
    /// How many bytes the file has: at most 268,435,456.
    #[tactic(auto, unfolding(crate::specs::Rest::bytes_put))]
    pub fn len(&self) -> u32
        ensures value { result ≡ length (bytes_put self.now) }
        ensures bound { result ≤ MOST_FILE_BYTES }
    {
        self.recipe.len()
    }

    /// How many blocks the file has.
    pub fn blocks(&self) -> u32
        ensures { result
            ≡ blocks_of self.now.layout.s self.now.layout.r (length (bytes_put self.now)) }
    {
        self.layout.blocks_of(self.len())
    }
}

/// A slot of a block that a put stores. Its server is the first for it, or comes `again` after one
/// that failed, and so many `grants` may follow: at most 64.
#[derive(Clone, Copy)]
pub struct PutSlot {
    pub file: FileId,
    pub index: u32,
    pub slot: Slot,
    pub grants: u8,
    pub again: bool,
}

/// How a put ends.
#[derive(Clone, Copy)]
pub enum PutEnding {
    /// The file was closed, and has `len` bytes.
    Stored {
        place: Place,
        len: u32,
    },
    /// There was no server for a slot, and the file was given up.
    NoServer {
        place: Place,
        index: u32,
        slot: Slot,
    },
    /// The name tree refused the file.
    Refused {
        place: Place,
        refusal: TreeRefusal,
    },
    /// It ends as any command may.
    Common(Ending),
}

impl PutEnding {
    /// The reply of a put that ends so, as it is kept. Takes no memory.
    #[tactic(auto, unfolding(crate::specs::Rest::report_of_put, qfs_model_actor::specs::Shown::shown_reply))]
    pub fn into_reply(self) -> Reply<Excerpt>
        ensures { result ≡ kept_report (report_of_put self) }
    {
        match self {
            PutEnding::Stored { place, len } => Reply::Stored { place, len },
            PutEnding::NoServer { place, index, slot } => Reply::PutNoServer { place, index, slot },
            PutEnding::Refused { place, refusal } => Reply::Refused { place, refusal },
            PutEnding::Common(ending) => ending.into_reply(),
        }
    }
}

/// What a put waits for.
#[derive(Clone, Copy)]
pub enum Stage {
    /// It makes its file.
    Creating,
    /// It asks for a server for a slot.
    Granting(PutSlot),
    /// It stores the slot there.
    Storing(PutSlot, Copy),
    /// It closes its file.
    Closing(FileId),
    /// It found no server for a slot, and gives its file up: the block's index and the slot.
    Aborting(FileId, u32, Slot),
    /// It gives its file up, and then it ends so.
    GivingUp(FileId, Ending),
    /// It has ended.
    Ended(PutEnding),
}
