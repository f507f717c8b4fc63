//! What a command on a server waits for, and what it asks there.
#![tactic(auto, unfolding(crate::specs::Rest::rest_of_change, qfs_model_actor::specs::Servers::stop_work, qfs_model_actor::specs::Servers::start_work, qfs_model_actor::specs::Servers::wipe_work, qfs_model_actor::specs::Servers::hibernate_work, qfs_model_actor::specs::Servers::upgrade_work, qfs_model_actor::specs::Servers::tell_copies, qfs_model_actor::specs::Ask::ask, qfs_model_actor::specs::Ask::ask_server, qfs_model_actor::specs::Hold::ask_or, qfs_model_actor::specs::Work::request_in, qfs_model_actor::specs::Work::node_of_request))]

ghost use Rattle.std.specs.Prelude.{◌≡◌, ◌↔◌, IfOk, IfSome, IsTrue};
ghost use Rattle.qfs_machine.specs.Asking.{AsksNext, node_asked};
ghost use Rattle.qfs_hiber.specs.Rest.{rest_of_change, IsAskedByChange};
ghost use Rattle.qfs_hiber.specs.Turns.{AsksMeta, AsksServer};

use crate::ending::{ChangeEnding, Up};
use qfs_base::lists::KeyList;
use qfs_base::numbers::{Life, NodeId, ServerId};
use qfs_base::request::{ChunkRequest, MetaRequest, NodeRequest};
use std::alloc::AllocError;

/// What a command on a server waits for.
#[derive(Drop)]
pub enum Stage {
    /// The server is to stop.
    Stopping,
    /// It is down, and the metaserver is told so.
    Parting,
    /// It is to start.
    Starting,
    /// It is to be wiped.
    Wiping,
    /// It is up, and is asked for its life and keys.
    Listing(Up),
    /// The metaserver is told of these.
    Telling(Up, Life, KeyList),
    /// The metaserver is told that the server will be down for so many ticks.
    Announcing { ticks: u32 },
    /// The server is to stop, and is expected back at this reading of the clock.
    Resting { until: u64 },
    /// It is to write its chunk records in the second version.
    Upgrading,
    /// The command has ended.
    Ended(ChangeEnding),
}

impl Stage {
    /// Whether its request goes to the metaserver.
    pub fn asks_meta(&self) -> bool
        ensures { IsTrue result ↔ AsksMeta self.now }
    {
        matches!(
            self,
            Stage::Parting | Stage::Telling(..) | Stage::Announcing { .. }
        )
    }

    /// Whether its request goes to the server.
    pub fn asks_server(&self) -> bool
        ensures { IsTrue result ↔ AsksServer self.now }
    {
        !matches!(self, Stage::Ended(_)) && !self.asks_meta()
    }
}

/// The request of a command at this stage, or None where it has ended. Only the list of keys takes
/// memory, and want of it is the one failure.
pub fn request_at(server: ServerId, stage: &Stage) -> Result<Option<NodeRequest>, AllocError>
    ensures request { IfOk result (AsksNext (rest_of_change server stage.now)) }
    ensures askable { IfOk result (λ request. IfSome request IsAskedByChange) }
{
    let request = match stage {
        Stage::Stopping | Stage::Resting { .. } => {
            NodeRequest::Chunk(server, ChunkRequest::Stop)
        }
        Stage::Parting => NodeRequest::Meta(MetaRequest::Bye { server }),
        Stage::Starting => NodeRequest::Chunk(server, ChunkRequest::Start),
        Stage::Wiping => NodeRequest::Chunk(server, ChunkRequest::Wipe),
        Stage::Listing(_) => NodeRequest::Chunk(server, ChunkRequest::Inventory),
        Stage::Telling(_, life, keys) => {
            let keys = keys.clone()?;
            let life = *life;
            NodeRequest::Meta(MetaRequest::Hello { server, life, keys })
        }
        Stage::Announcing { ticks } => {
            let ticks = *ticks;
            NodeRequest::Meta(MetaRequest::Hibernate { server, ticks })
        }
        Stage::Upgrading => NodeRequest::Chunk(server, ChunkRequest::Upgrade),
        Stage::Ended(_) => return Ok(None),
    };
    Ok(Some(request))
}

/// The node of that request.
pub fn node_at(server: ServerId, stage: &Stage) -> Option<NodeId>
    ensures { result ≡ node_asked (rest_of_change server stage.now) }
{
    match stage {
        Stage::Parting | Stage::Telling(..) | Stage::Announcing { .. } => Some(0),
        Stage::Ended(_) => None,
        _ => Some(server),
    }
}
