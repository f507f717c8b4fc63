//! A chunk that is stored under its grant, and what is asked for that.
#![tactic(auto, unfolding(crate::specs::Deliveries::rest_of_delivery, qfs_model_actor::specs::Repair::store_granted, qfs_model_actor::specs::Repair::confirm, qfs_model_actor::specs::Ask::ask, qfs_model_actor::specs::Ask::ask_server, qfs_model_actor::specs::Hold::ask_or, qfs_model_actor::specs::Hold::give_back, qfs_model_actor::specs::Work::request_in, qfs_model_actor::specs::Work::node_of_request))]

ghost use Rattle.std.specs.Prelude.{◌≡◌, Some};
ghost use Rattle.qfs_machine.specs.Asking.{Asks, node_asked};
ghost use Rattle.qfs_repair.specs.Deliveries.{Course, rest_of_delivery};
ghost use Rattle.qfs_repair.specs.Deliveries.{IsAskedByRepair, IsDelivery, HoldsChunk};

use crate::chunk::Chunk;
use crate::failure::Failure;
use qfs_base::chunk::ChunkKey;
use qfs_base::numbers::NodeId;
use qfs_base::reply::Granted;
use qfs_base::request::{ChunkRequest, MetaRequest, NodeRequest};
use qfs_machine::Ending;

/// What follows once a grant was given up.
#[derive(Clone, Copy)]
pub enum After {
    /// The slot has failed so.
    Failed(Failure),
    /// The command ends, as any may.
    Ended(Ending),
}

/// A chunk on its way under its grant.
#[derive(Drop)]
pub enum Delivery {
    /// It is stored on the server of its grant.
    Storing(Granted, Chunk),
    /// It is stored, and is to become the slot's copy.
    Confirming(Granted),
    /// The grant is given up.
    Abandoning(Granted, After),
}

/// The request that stores a chunk as it was granted.
fn store_request(grant: &Granted, chunk: &mut Chunk) -> NodeRequest
    requires at { IsDelivery (Delivery.Storing grant.now chunk.old) }
    requires held { HoldsChunk (Delivery.Storing grant.now chunk.old) }
    ensures request { (course : Course)
        → Asks (rest_of_delivery course (Delivery.Storing grant.now chunk.old)) result }
    ensures bytes { chunk.new.bytes ≡ chunk.old.bytes }
    ensures askable { IsAskedByRepair result }
{
    let bytes = chunk.hand_on();
    let key = ChunkKey {
        block: grant.block,
        slot: grant.slot,
        version: grant.version,
    };
    let life = grant.life;
    NodeRequest::Chunk(grant.server, ChunkRequest::Put { key, life, bytes })
}

/// The request that makes a granted copy the slot's.
fn confirm_request(grant: &Granted) -> NodeRequest
    ensures request { (course : Course)
        → Asks (rest_of_delivery course (Delivery.Confirming grant.now)) result }
    ensures askable { IsAskedByRepair result }
{
    NodeRequest::Meta(MetaRequest::Confirm {
        block: grant.block,
        slot: grant.slot,
        version: grant.version,
        lease: grant.lease,
    })
}

/// The request that gives a grant up.
pub fn abandon_request(grant: &Granted) -> NodeRequest
    ensures request { (course : Course) (after : After)
        → Asks (rest_of_delivery course (Delivery.Abandoning grant.now after)) result }
    ensures askable { IsAskedByRepair result }
{
    NodeRequest::Meta(MetaRequest::Abandon {
        block: grant.block,
        slot: grant.slot,
        version: grant.version,
        lease: grant.lease,
    })
}

impl Delivery {
    /// The next request. It takes no memory, and hands the chunk on with no copy of it.
    pub fn request(&mut self) -> NodeRequest
        requires at { IsDelivery self.old }
        requires held { HoldsChunk self.old }
        ensures request { (course : Course) → Asks (rest_of_delivery course self.old) result }
        ensures rest { (course : Course)
            → rest_of_delivery course self.new ≡ rest_of_delivery course self.old }
        ensures at { IsDelivery self.new }
        ensures askable { IsAskedByRepair result }
    {
        match self {
            Delivery::Storing(grant, chunk) => store_request(grant, chunk),
            Delivery::Confirming(grant) => confirm_request(grant),
            Delivery::Abandoning(grant, _) => abandon_request(grant),
        }
    }

    /// The node of that request: 0 is the metaserver, s is server s.
    pub fn goes_to(&self) -> NodeId
        ensures { (course : Course)
            → Some result ≡ node_asked (rest_of_delivery course self.now) }
    {
        match self {
            Delivery::Storing(grant, _) => grant.server,
            Delivery::Confirming(_) | Delivery::Abandoning(..) => 0,
        }
    }
}
