//! What a sweep waits for, and what it asks there.
#![tactic(auto, unfolding(crate::specs::Rest::rest_of_sweep, crate::specs::Rest::report_of_sweep, qfs_model_actor::specs::Sweep::sweep_on, qfs_model_actor::specs::Sweep::erase, qfs_model_actor::specs::Sweep::say_swept, qfs_model_actor::specs::Ask::ask, qfs_model_actor::specs::Ask::ask_server, qfs_model_actor::specs::Hold::ask_or, qfs_model_actor::specs::Work::request_in, qfs_model_actor::specs::Work::node_of_request, qfs_model_actor::specs::Shown::shown_reply))]

ghost use Rattle.std.specs.Prelude.{◌≡◌, IfSome};
ghost use Rattle.qfs_machine.specs.Asking.{AsksNext, node_asked};
ghost use Rattle.qfs_model_actor.specs.Shown.{kept_report};
ghost use Rattle.qfs_sweep.specs.Rest.{report_of_sweep, rest_of_sweep, IsAskedBySweep};

use qfs_base::chunk::ChunkKey;
use qfs_base::command::{Excerpt, Reply};
use qfs_base::numbers::NodeId;
use qfs_base::reply::Condemned;
use qfs_base::request::{ChunkRequest, MetaRequest, NodeRequest};
use qfs_machine::Ending;

/// How a sweep ends.
#[derive(Clone, Copy)]
pub enum SweepEnding {
    /// So many copies were deleted.
    Swept { erased: u32 },
    /// It ends as any command may.
    Common(Ending),
}

impl SweepEnding {
    /// The reply of a sweep that ends so, as it is kept. Takes no memory.
    pub fn into_reply(self) -> Reply<Excerpt>
        ensures { result ≡ kept_report (report_of_sweep self) }
    {
        match self {
            SweepEnding::Swept { erased } => Reply::Swept { erased },
            SweepEnding::Common(ending) => ending.into_reply(),
        }
    }
}

/// How far a sweep is that has deleted so many copies, and may go on with so many `more` behind the
/// one that is at hand.
#[derive(Clone, Copy)]
pub struct Progress {
    pub more: u32,
    pub erased: u32,
}

/// What a sweep waits for.
#[derive(Clone, Copy)]
pub enum Stage {
    /// It asks for a copy with a number above `after`.
    Ordering { at: Progress, after: u64 },
    /// It deletes this one.
    Erasing { at: Progress, condemned: Condemned },
    /// It says that the copy of this number is gone.
    Saying { at: Progress, number: u64 },
    /// It has ended.
    Ended(SweepEnding),
}

/// The request of a sweep at this stage, or None where it has ended. Takes no memory.
pub fn request_at(stage: Stage) -> Option<NodeRequest>
    ensures request { AsksNext (rest_of_sweep stage) result }
    ensures askable { IfSome result IsAskedBySweep }
{
    let request = match stage {
        Stage::Ordering { after, .. } => NodeRequest::Meta(MetaRequest::OrderNext { after }),
        Stage::Erasing { condemned, .. } => {
            let key = ChunkKey {
                block: condemned.block,
                slot: condemned.slot,
                version: condemned.copy.version,
            };
            let life = condemned.copy.life;
            NodeRequest::Chunk(condemned.copy.server, ChunkRequest::Erase { key, life })
        }
        Stage::Saying { number, .. } => NodeRequest::Meta(MetaRequest::Swept { number }),
        Stage::Ended(_) => return None,
    };
    Some(request)
}

/// The node of that request.
pub fn node_at(stage: Stage) -> Option<NodeId>
    ensures { result ≡ node_asked (rest_of_sweep stage) }
{
    match stage {
        Stage::Ordering { .. } | Stage::Saying { .. } => Some(0),
        Stage::Erasing { condemned, .. } => Some(condemned.copy.server),
        Stage::Ended(_) => None,
    }
}
