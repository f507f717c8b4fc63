//! How a command that moves copies ends.
#![tactic(auto, unfolding(crate::specs::Rest::report_of_move, qfs_repair::specs::Deliveries::report_of_failure, qfs_model_actor::specs::Shown::shown_reply))]

ghost use Rattle.std.specs.Prelude.{◌≡◌};
ghost use Rattle.qfs_model_actor.specs.Shown.{kept_report};
ghost use Rattle.qfs_move.specs.Rest.{report_of_move};
ghost use Rattle.qfs_repair.specs.Deliveries.{report_of_failure};

use qfs_base::chunk::BlockId;
use qfs_base::command::{Excerpt, Reply};
use qfs_base::numbers::{ServerId, Slot, Version};
use qfs_base::reply::TreeRefusal;
use qfs_machine::Ending;
use qfs_repair::Failure;

/// A copy that was moved.
#[derive(Clone, Copy)]
pub struct Moved {
    pub block: BlockId,
    pub slot: Slot,
    pub from: ServerId,
    pub to: ServerId,
    pub version: Version,
}

/// How a command that moves copies ends.
#[derive(Clone, Copy)]
pub enum MoveEnding {
    /// The one copy was moved.
    Moved(Moved),
    /// It could not be moved.
    Failed(Failure),
    /// The path names no closed file.
    BadPath(TreeRefusal),
    /// The file has no such block or slot.
    NoBlock,
    /// The slot has a grant already.
    Taken {
        version: Version,
    },
    /// The server of the copy isn't up with it.
    Away {
        server: ServerId,
    },
    /// The other server may not have it.
    Barred {
        server: ServerId,
    },
    /// So many copies were moved to even the servers out, and so many failed.
    Rebalanced {
        moved: u32,
        failed: u32,
    },
    /// So many were moved off a server, so many failed, and so many are left.
    Evacuated {
        moved: u32,
        failed: u32,
        left: u32,
    },
    /// No server was found for this one.
    NoServer {
        moved: u32,
        failed: u32,
        block: BlockId,
        slot: Slot,
    },
    /// It ends as any command may.
    Common(Ending),
}

/// The reply of a command whose copy could not be moved, as it is kept.
fn failed(failure: Failure) -> Reply<Excerpt>
    ensures { result ≡ kept_report (report_of_failure failure) }
{
    match failure {
        Failure::Source { server, cause } => Reply::SourceFailed { server, cause },
        Failure::Dest { server, cause } => Reply::DestFailed { server, cause },
        Failure::Gone => Reply::Gone,
    }
}

impl Moved {
    /// The reply of a command whose copy was moved, as it is kept.
    fn into_reply(self) -> Reply<Excerpt>
        ensures { result ≡ kept_report (report_of_move (MoveEnding.Moved self)) }
    {
        Reply::Moved {
            block: self.block,
            slot: self.slot,
            from: self.from,
            to: self.to,
            version: self.version,
        }
    }
}

impl MoveEnding {
    /// The reply of a command that ends so, as it is kept. Takes no memory.
    pub fn into_reply(self) -> Reply<Excerpt>
        ensures { result ≡ kept_report (report_of_move self) }
    {
        match self {
            MoveEnding::Moved(moved) => moved.into_reply(),
            MoveEnding::Failed(failure) => failed(failure),
            MoveEnding::BadPath(refusal) => Reply::BadPath(refusal),
            MoveEnding::NoBlock => Reply::NoBlock,
            MoveEnding::Taken { version } => Reply::Taken { version },
            MoveEnding::Away { server } => Reply::Away { server },
            MoveEnding::Barred { server } => Reply::Barred { server },
            MoveEnding::Rebalanced { moved, failed } => Reply::Rebalanced { moved, failed },
            MoveEnding::Evacuated {
                moved,
                failed,
                left,
            } => Reply::Evacuated {
                moved,
                failed,
                left,
            },
            MoveEnding::NoServer {
                moved,
                failed,
                block,
                slot,
            } => Reply::EvacNoServer {
                moved,
                failed,
                block,
                slot,
            },
            MoveEnding::Common(ending) => ending.into_reply(),
        }
    }
}
