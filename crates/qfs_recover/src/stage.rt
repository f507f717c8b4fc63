//! What a command that recovers slots waits for.

use crate::ending::RecoveryEnding;
use qfs_base::lists::CauseList;
use qfs_base::numbers::Slot;
use qfs_base::path::Path;
use qfs_base::reply::Granted;
use qfs_base::request::SlotId;
use qfs_repair::Delivery;
use qfs_window::{Sources, WindowRead};

/// One slot that is to be recovered: of a block of a file.
#[derive(Drop)]
pub struct OneRecovery {
    pub path: Path,
    pub index: u32,
    pub slot: Slot,
}

/// Where a heal stands: the last slot that was granted, and how many were recovered and failed. It
/// may go on with so many `more` behind the one that is at hand.
#[derive(Clone, Copy)]
pub struct Heal {
    pub more: u32,
    pub after: Option<SlotId>,
    pub healed: u32,
    pub failed: u32,
}

/// What a slot is recovered for.
#[derive(Clone, Copy)]
pub enum Errand {
    /// It was named.
    One,
    /// One missing slot after another is recovered.
    Heal(Heal),
}

/// A chunk that is made anew under a grant, group by group of its rows, each from six other slots
/// of its block. Those groups before the present one are there.
#[derive(Drop)]
pub struct Restoring {
    pub grant: Granted,
    /// Room for the whole chunk, once a group is read. Its first bytes are those made so far.
    pub chunk: Vec<u8>,
    pub group: u32,
    /// The window of the present group.
    pub read: WindowRead,
}

/// A grant that is given up since too few slots of its block can be read. The causes are there once
/// the request is prepared.
#[derive(Drop)]
pub struct Starving {
    pub grant: Granted,
    pub sources: Sources,
    pub causes: Option<CauseList>,
}

/// What such a command waits for.
#[derive(Drop)]
pub enum Stage {
    /// It asks for the recovery of one slot.
    Asking(OneRecovery),
    /// It asks for the next missing slot.
    Healing(Heal),
    /// It reads the other slots of the block.
    Restoring(Errand, Restoring),
    /// Too few of them can be read, and the grant is given up.
    Starving(Errand, Starving),
    /// It stores the chunk that was made anew.
    Delivering(Errand, Delivery),
    /// It has ended.
    Ended(RecoveryEnding),
}
