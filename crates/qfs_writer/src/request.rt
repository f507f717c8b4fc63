//! What a put asks at each stage.
#![tactic(auto, unfolding(crate::specs::Rest::rest_of_put, qfs_model_actor::specs::Work::request_in, qfs_model_actor::specs::Hold::end_with, qfs_model_actor::specs::Hold::give_back, qfs_model_actor::specs::Hold::ask_or, qfs_model_actor::specs::Ask::ask, qfs_model_actor::specs::Ask::ask_server, qfs_model_actor::specs::Put::close_file, qfs_model_actor::specs::Put::put_work))]

ghost use Rattle.std.specs.Prelude.{◌≡◌, IfOk, IfSome};
ghost use Rattle.qfs_machine.specs.Askable.{IsAskable};
ghost use Rattle.qfs_machine.specs.Asking.{Asks, AsksNext, node_asked};
ghost use Rattle.qfs_writer.specs.declared.stage.Put.{Put};
ghost use Rattle.qfs_writer.specs.Rest.{rest_of_put, IsPutStage, IsPutSlot};

use crate::chunk::chunk_of;
use crate::stage::{Put, PutSlot, Stage};
use qfs_base::chunk::{BlockId, ChunkKey, Copy};
use qfs_base::numbers::NodeId;
use qfs_base::path::Path;
use qfs_base::request::{ChunkRequest, MetaRequest, NodeRequest};
use std::alloc::{AllocError, Global};

/// A copy of a path.
fn copy_path(path: &Path) -> Result<Path, AllocError>
    ensures { IfOk result (λ copy. copy ≡ path.now) }
{
    path.clone()
}

/// The request that makes the file.
fn create_request(put: &Put) -> Result<NodeRequest, AllocError>
    ensures request { IfOk result (Asks (rest_of_put put.now Stage.Creating)) }
    ensures askable { IfOk result IsAskable }
{
    let path = copy_path(&put.path)?;
    Ok(NodeRequest::Meta(MetaRequest::Create {
        path,
        command: put.number,
        len: put.len(),
    }))
}

/// The request for a server for a slot.
fn grant_request(at: PutSlot) -> NodeRequest
    ensures request { (put : Put) → Asks (rest_of_put put (Stage.Granting at)) result }
    ensures askable { IsAskable result }
{
    NodeRequest::Meta(MetaRequest::Grant {
        file: at.file,
        index: at.index,
        slot: at.slot,
        again: at.again,
    })
}

/// The request that stores a slot on the server of its grant.
fn store_request(
    alloc: Global,
    put: &Put,
    at: PutSlot,
    copy: Copy,
) -> Result<NodeRequest, AllocError>
    requires { IsPutSlot put.now at }
    ensures request { IfOk result (Asks (rest_of_put put.now (Stage.Storing at copy))) }
    ensures askable { IfOk result IsAskable }
{
    let bytes = chunk_of(alloc, &put.layout, &put.recipe, at.index, at.slot)?;
    let block = BlockId {
        file: at.file,
        index: at.index,
    };
    let key = ChunkKey {
        block,
        slot: at.slot,
        version: copy.version,
    };
    let life = copy.life;
    Ok(NodeRequest::Chunk(copy.server, ChunkRequest::Put { key, life, bytes }))
}

/// The next request of a put, or None where it has ended.
pub fn request_at(alloc: Global, put: &Put, stage: Stage) -> Result<Option<NodeRequest>, AllocError>
    requires { IsPutStage put.now stage }
    ensures request { IfOk result (AsksNext (rest_of_put put.now stage)) }
    ensures askable { IfOk result (λ request. IfSome request IsAskable) }
{
    let request = match stage {
        Stage::Creating => create_request(put)?,
        Stage::Granting(at) => grant_request(at),
        Stage::Storing(at, copy) => store_request(alloc, put, at, copy)?,
        Stage::Closing(file) => NodeRequest::Meta(MetaRequest::Close { file }),
        Stage::Aborting(file, _, _) => NodeRequest::Meta(MetaRequest::Abort { file }),
        Stage::GivingUp(file, _) => NodeRequest::Meta(MetaRequest::Abort { file }),
        Stage::Ended(_) => return Ok(None),
    };
    Ok(Some(request))
}

/// The node that a put's next request goes to, or None where it has ended.
pub fn node_of(stage: Stage) -> Option<NodeId>
    ensures { (put : Put) → result ≡ node_asked (rest_of_put put stage) }
{
    match stage {
        Stage::Storing(_, copy) => Some(copy.server),
        Stage::Ended(_) => None,
        _ => Some(0),
    }
}
