//! What a command that moves copies waits for.

use crate::ending::MoveEnding;
use qfs_base::chunk::Copy;
use qfs_base::numbers::{ServerId, Slot};
use qfs_base::path::Path;
use qfs_base::reply::Granted;
use qfs_base::request::SlotId;
use qfs_repair::Delivery;

/// One copy that is to be moved: that of a slot of a block of a file, to this server.
#[derive(Drop)]
pub struct OneMove {
    pub path: Path,
    pub index: u32,
    pub slot: Slot,
    pub to: ServerId,
}

/// A rebalancing that has moved so many copies, and may go on with so many `more` behind the one
/// that is at hand.
#[derive(Clone, Copy)]
pub struct Balancing {
    pub more: u32,
    pub moved: u32,
}

/// Where an evacuation stands: the last slot that was granted, and how many were moved and failed.
#[derive(Clone, Copy)]
pub struct Progress {
    pub after: Option<SlotId>,
    pub moved: u32,
    pub failed: u32,
}

/// An evacuation of a server, which may go on with so many `more` copies behind the one that is at
/// hand.
#[derive(Clone, Copy)]
pub struct Evacuating {
    pub server: ServerId,
    pub more: u32,
    pub so_far: Progress,
}

/// What a copy is moved for.
#[derive(Clone, Copy)]
pub enum Errand {
    /// It was named.
    One,
    /// The servers are evened out.
    Balance(Balancing),
    /// Its server is emptied.
    Evacuate(Evacuating),
}

/// A copy that is read whole under a grant, group by group of its rows. Those groups before the
/// present one are there.
#[derive(Drop)]
pub struct Copying {
    pub grant: Granted,
    pub source: Copy,
    /// Room for the whole chunk, once a group is read. Its first bytes are those that were read.
    pub chunk: Vec<u8>,
    pub group: u32,
}

/// What such a command waits for.
#[derive(Drop)]
pub enum Stage {
    /// It asks for the move of one copy.
    Asking(OneMove),
    /// It asks for a move that evens the servers out.
    Balancing(Balancing),
    /// A server is to take no new chunks, and then at most so many copies are moved off it.
    Leaving { server: ServerId, budget: u32 },
    /// It asks for the next copy on the server.
    Evacuating(Evacuating),
    /// It asks how many copies the server has left.
    Counting { server: ServerId, so_far: Progress },
    /// It reads a copy.
    Copying(Errand, Copying),
    /// It stores what it read of a copy.
    Delivering(Errand, Copy, Delivery),
    /// It has ended.
    Ended(MoveEnding),
}
