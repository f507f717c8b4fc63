//! How a command that recovers slots ends.
#![tactic(auto, unfolding(crate::specs::Rest::report_of_recovery, qfs_repair::specs::Deliveries::report_of_failure, qfs_model_actor::specs::Shown::shown_reply))]

ghost use Rattle.std.specs.Prelude.{◌≡◌};
ghost use Rattle.qfs_model_actor.specs.Shown.{kept_report};
ghost use Rattle.qfs_recover.specs.Rest.{report_of_recovery};
ghost use Rattle.qfs_repair.specs.Deliveries.{report_of_failure};

use qfs_base::chunk::BlockId;
use qfs_base::command::{Excerpt, Reply};
use qfs_base::lists::CauseList;
use qfs_base::numbers::{ServerId, Slot, Version};
use qfs_base::reply::TreeRefusal;
use qfs_machine::Ending;
use qfs_repair::Failure;

/// How a command that recovers slots ends.
#[derive(Drop)]
pub enum RecoveryEnding {
    /// The one slot was recovered.
    Recovered {
        block: BlockId,
        slot: Slot,
        server: ServerId,
        version: Version,
    },
    /// It could not be.
    Failed(Failure),
    /// Too few slots of its block can be read.
    TooFew {
        index: u32,
        causes: CauseList,
    },
    /// The path names no closed file.
    BadPath(TreeRefusal),
    /// The file has no such block or slot.
    NoBlock,
    /// The slot has a grant already.
    Taken {
        version: Version,
    },
    /// It isn't missing.
    Whole,
    /// No server was found for the one slot.
    NoServer {
        block: BlockId,
        slot: Slot,
    },
    /// So many slots were recovered, and so many failed.
    Healed {
        healed: u32,
        failed: u32,
    },
    /// The same, and no server was found for this one.
    HealNoServer {
        healed: u32,
        failed: u32,
        block: BlockId,
        slot: Slot,
    },
    /// It ends as any command may.
    Common(Ending),
}

/// The reply of a command whose slot could not be recovered, as it is kept.
fn failed(failure: Failure) -> Reply<Excerpt>
    ensures { result ≡ kept_report (report_of_failure failure) }
{
    match failure {
        Failure::Source { server, cause } => Reply::SourceFailed { server, cause },
        Failure::Dest { server, cause } => Reply::DestFailed { server, cause },
        Failure::Gone => Reply::Gone,
    }
}

impl RecoveryEnding {
    /// The reply of a command that ends so, as it is kept. Takes no memory.
    pub fn into_reply(self) -> Reply<Excerpt>
        ensures { result ≡ kept_report (report_of_recovery self) }
    {
        match self {
            RecoveryEnding::Recovered {
                block,
                slot,
                server,
                version,
            } => Reply::Recovered {
                block,
                slot,
                server,
                version,
            },
            RecoveryEnding::Failed(failure) => failed(failure),
            RecoveryEnding::TooFew { index, causes } => Reply::TooFew { index, causes },
            RecoveryEnding::BadPath(refusal) => Reply::BadPath(refusal),
            RecoveryEnding::NoBlock => Reply::NoBlock,
            RecoveryEnding::Taken { version } => Reply::Taken { version },
            RecoveryEnding::Whole => Reply::Whole,
            RecoveryEnding::NoServer { block, slot } => Reply::NoServer { block, slot },
            RecoveryEnding::Healed { healed, failed } => Reply::Healed { healed, failed },
            RecoveryEnding::HealNoServer {
                healed,
                failed,
                block,
                slot,
            } => Reply::HealNoServer {
                healed,
                failed,
                block,
                slot,
            },
            RecoveryEnding::Common(ending) => ending.into_reply(),
        }
    }
}
