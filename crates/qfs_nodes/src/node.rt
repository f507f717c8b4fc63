//! A node of the world, and its turn with an actor.
ghost use Rattle.std.specs.Prelude.{◌≡◌, false};
ghost use Rattle.qfs_actor.specs.Standing.{CanAsk};
ghost use Rattle.qfs_base.specs.Outcome.{outcome_of, meta_outcome, chunk_outcome};
ghost use Rattle.qfs_machine.specs.Askable.{IsAskable};
ghost use Rattle.qfs_machine.specs.declared.machine.Readiness.{Readiness};
ghost use Rattle.qfs_model_actor.specs.Actor.{has_finished};
ghost use Rattle.qfs_nodes.specs.Turns.{Takes, Turns, no_server};

use qfs_actor::Actor;
use qfs_base::history::Outcome;
use qfs_base::lists::Bytes;
use qfs_base::numbers::ActorId;
use qfs_base::reply::{ChunkAnswer, ChunkReply, MetaReply, NodeReply};
use qfs_base::request::NodeRequest;
use qfs_device::ChunkDevice;
use qfs_meta::Meta;
use qfs_store::Store;
use std::alloc::Global;

/// A node: the metaserver, or a chunk server with its device. A request to a chunk server that
/// isn't there comes to the metaserver too.
#[derive(Drop)]
pub enum NodeState<D: ChunkDevice> {
    Meta(Meta),
    Store(Store<D>),
}

/// Lets a node serve the next request of an actor that is ready and hasn't finished, and hands the
/// reply to the actor, which isn't ready then. The outcome is the one that the reply shows. What
/// comes of it depends on these two alone.
///
/// A request to a chunk server that comes to the metaserver is one to a server that isn't there:
/// it is down. A request to the metaserver that comes to a chunk server is answered `Nothing`.
pub fn turn_on<D: ChunkDevice>(node: &mut NodeState<D>, actor: &mut Actor) -> Outcome
    requires ready { CanAsk actor.old }
    requires unfinished { has_finished actor.old.actor ≡ false }
    ensures turns { Turns node.old actor.old.actor result node.new actor.new.actor }
    ensures unready { actor.new.readiness ≡ Readiness.Unready }
{
    let number = actor.number();
    match actor.next() {
        Some(request) => {
            let reply = serve(node, number, request);
            let outcome = outcome_of(&reply);
            actor.took(reply);
            outcome
        }
        None => unreachable!(),
    }
}

/// Lets a node serve a request.
fn serve<D: ChunkDevice>(node: &mut NodeState<D>, actor: ActorId, request: NodeRequest) -> NodeReply
    requires askable { IsAskable request }
    ensures takes { Takes actor node.old request result node.new }
{
    match request {
        NodeRequest::Meta(request) => match node {
            NodeState::Meta(meta) => NodeReply::Meta(meta.serve(actor, &request)),
            NodeState::Store(_) => NodeReply::Meta(MetaReply::Nothing),
        },
        NodeRequest::Chunk(_, request) => match node {
            NodeState::Meta(meta) => no_server(meta.allocator()),
            NodeState::Store(store) => NodeReply::Chunk(store.serve(request)),
        },
    }
}

/// The answer to a request to a chunk server that isn't there. It takes no memory.
fn no_server(alloc: Global) -> NodeReply
    ensures { result ≡ no_server }
{
    NodeReply::Chunk(ChunkReply {
        answer: ChunkAnswer::Down,
        room: Bytes::new(alloc),
    })
}

/// How the step ended that a node answered so.
#[tactic(auto, unfolding(qfs_base::specs::Outcome::outcome_of))]
fn outcome_of(reply: &NodeReply) -> Outcome
    ensures { result ≡ outcome_of reply.now }
{
    match reply {
        NodeReply::Meta(answer) => meta_outcome(answer),
        NodeReply::Chunk(reply) => chunk_outcome(&reply.answer),
    }
}

#[tactic(auto, unfolding(qfs_base::specs::Outcome::meta_outcome))]
fn meta_outcome(answer: &MetaReply) -> Outcome
    ensures { result ≡ meta_outcome answer.now }
{
    match answer {
        MetaReply::LogFault | MetaReply::BadLog { .. } => Outcome::Failed,
        MetaReply::NoMemory => Outcome::NoMemory,
        _ => Outcome::Done,
    }
}

#[tactic(auto, unfolding(qfs_base::specs::Outcome::chunk_outcome))]
fn chunk_outcome(answer: &ChunkAnswer) -> Outcome
    ensures { result ≡ chunk_outcome answer.now }
{
    match answer {
        ChunkAnswer::Fault => Outcome::Failed,
        ChunkAnswer::NoMemory => Outcome::NoMemory,
        _ => Outcome::Done,
    }
}
