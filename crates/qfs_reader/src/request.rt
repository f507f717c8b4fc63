//! What a get asks at each stage.
#![tactic(auto, unfolding(crate::specs::Rest::rest_of_get, qfs_model_actor::specs::Work::request_in, qfs_model_actor::specs::Work::node_of_request, qfs_model_actor::specs::Hold::end_with, qfs_model_actor::specs::Hold::give_back, qfs_model_actor::specs::Hold::ask_or, qfs_model_actor::specs::Ask::ask, qfs_model_actor::specs::Ask::fetch, qfs_model_actor::specs::Get::attempt))]

ghost use Rattle.std.specs.Prelude.{◌≡◌, IfOk, IfSome, replicate};
ghost use Rattle.qfs_base.specs.declared.request.MetaRequest.TheVariants as Ask;
ghost use Rattle.qfs_base.specs.declared.request.NodeRequest.TheVariants as To;
ghost use Rattle.qfs_machine.specs.Askable.{IsAskable};
ghost use Rattle.qfs_machine.specs.Asking.{Asks, AsksNext, node_asked};
ghost use Rattle.qfs_reader.specs.Rest.{rest_of_get, rest_of_position};
ghost use Rattle.qfs_reader.specs.ReaderState.{IsGetStage, IsPosition};

use crate::stage::{Attempt, Get, Position, Stage};
use crate::window::{first_byte, window_bytes};
use qfs_base::chunk::{BlockId, ChunkKey};
use qfs_base::listing::Listing;
use qfs_base::lists::Bytes;
use qfs_base::numbers::{LeaseId, NodeId};
use qfs_base::path::Path;
use qfs_base::request::{ChunkRequest, MetaRequest, NodeRequest};
use std::alloc::{AllocError, Global};

/// The node number of the metaserver.
const METASERVER: NodeId = 0;

/// The request that opens the file at a path.
fn open_request(path: &Path) -> Result<NodeRequest, AllocError>
    ensures { IfOk result (λ request. request ≡ To.Meta (Ask.OpenFile path.now)) }
{
    let path = path.clone()?;
    Ok(NodeRequest::Meta(MetaRequest::OpenFile { path }))
}

/// The request that gives a lease back.
fn release_request(lease: LeaseId) -> NodeRequest
    ensures { result ≡ To.Meta (Ask.Release lease) }
{
    NodeRequest::Meta(MetaRequest::Release { lease })
}

/// So many zeros.
fn zeros(alloc: Global, len: usize) -> Result<Bytes, AllocError>
    ensures { IfOk result (λ bytes. bytes ≡ replicate len 0) }
{
    let bytes = vec![in alloc; 0; len]?;
    Ok(Listing::from_vec(bytes))
}

/// The request for the bytes of a slot in a window.
fn fetch_request(
    alloc: Global,
    get: &Get,
    attempt: &Attempt,
    position: &Position,
) -> Result<NodeRequest, AllocError>
    requires { IsPosition get.now attempt.now position.now }
    ensures request { IfOk result (Asks (rest_of_position get.now attempt.now position.now)) }
    ensures askable { IfOk result IsAskable }
{
    let copy = position.copy;
    let room = zeros(alloc, window_bytes(&get.layout, &position.window))?;
    let block = BlockId {
        file: attempt.opened.file,
        index: position.block,
    };
    let key = ChunkKey {
        block,
        slot: position.slot,
        version: copy.version,
    };
    let fetch = ChunkRequest::Fetch {
        key,
        life: copy.life,
        from: first_byte(&get.layout, &position.window),
        room,
    };
    Ok(NodeRequest::Chunk(copy.server, fetch))
}

/// The next request of a get, or None where it has ended.
pub fn request_at(
    alloc: Global,
    get: &Get,
    stage: &Stage,
) -> Result<Option<NodeRequest>, AllocError>
    requires { IsGetStage get.now stage.now }
    ensures request { IfOk result (AsksNext (rest_of_get get.now stage.now)) }
    ensures askable { IfOk result (λ request. IfSome request IsAskable) }
{
    match stage {
        Stage::Opening { .. } => {
            let request = open_request(&get.path)?;
            Ok(Some(request))
        }
        Stage::Reading(attempt, position) => {
            let request = fetch_request(alloc, get, attempt, position)?;
            Ok(Some(request))
        }
        Stage::Releasing(lease, _, _) => Ok(Some(release_request(*lease))),
        Stage::Retrying { lease, .. } => Ok(Some(release_request(*lease))),
        Stage::Ended(..) => Ok(None),
    }
}

/// The node of the next request: 0 is the metaserver, s is server s. None where the get has ended.
pub fn node_of(get: &Get, stage: &Stage) -> Option<NodeId>
    requires { IsGetStage get.now stage.now }
    ensures { result ≡ node_asked (rest_of_get get.now stage.now) }
{
    let _ = get;
    match stage {
        Stage::Opening { .. } => Some(METASERVER),
        Stage::Reading(_, position) => Some(position.copy.server),
        Stage::Releasing(..) => Some(METASERVER),
        Stage::Retrying { .. } => Some(METASERVER),
        Stage::Ended(..) => None,
    }
}
