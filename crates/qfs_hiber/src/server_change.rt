//! A command on a server at work.
#![tactic(auto, unfolding(crate::specs::Rest::rest_of_change, qfs_model_actor::specs::Work::request_in, qfs_model_actor::specs::Command::work_of))]

ghost use Rattle.qfs_base.specs.declared.command.Command.TheVariants as Does;
ghost use Rattle.qfs_hiber.specs.Rest.{rest_of_change, IsAskedByChange, Is};

use crate::stage::{Stage, node_at, request_at};
use crate::turn::stage_after;
use qfs_base::command::{Excerpt, Reply};
use qfs_base::numbers::{NodeId, ServerId};
use qfs_base::reply::NodeReply;
use qfs_base::request::NodeRequest;
use qfs_machine::Protocol;
use std::alloc::AllocError;

/// A command on a server at work: the server's number, and what the command waits for. What is left
/// of it is a tree of questions, by the definition of the command.
#[derive(Drop)]
pub struct ServerChange {
    pub server: ServerId,
    pub stage: Stage,
}

impl ServerChange {
    /// A server stops.
    pub fn stop(server: ServerId) -> ServerChange
        ensures { Is (Does.Stop server) result }
    {
        let stage = Stage::Stopping;
        ServerChange { server, stage }
    }

    /// A server starts.
    pub fn start(server: ServerId) -> ServerChange
        ensures { Is (Does.Start server) result }
    {
        let stage = Stage::Starting;
        ServerChange { server, stage }
    }

    /// A server is wiped.
    pub fn wipe(server: ServerId) -> ServerChange
        ensures { Is (Does.Wipe server) result }
    {
        let stage = Stage::Wiping;
        ServerChange { server, stage }
    }

    /// A server goes down and is expected back within so many ticks.
    pub fn hibernate(server: ServerId, ticks: u32) -> ServerChange
        ensures { Is (Does.Hibernate server ticks) result }
    {
        let stage = Stage::Announcing { ticks };
        ServerChange { server, stage }
    }

    /// A server writes its chunk records in the second version from now on.
    pub fn upgrade(server: ServerId) -> ServerChange
        ensures { Is (Does.Upgrade server) result }
    {
        let stage = Stage::Upgrading;
        ServerChange { server, stage }
    }
}

impl Protocol for ServerChange {
    ghost rest = { λ it. rest_of_change it.server it.stage };

    ghost may_ask = { IsAskedByChange };

    fn request(&self) -> Result<Option<NodeRequest>, AllocError> {
        request_at(self.server, &self.stage)
    }

    fn goes_to(&self) -> Option<NodeId> {
        node_at(self.server, &self.stage)
    }

    fn took(&mut self, reply: NodeReply) {
        let stage = stage_after(self.server, &self.stage, reply);
        self.stage = stage;
    }

    fn into_reply(self) -> Reply<Excerpt> {
        let ServerChange { stage, .. } = self;
        match stage {
            Stage::Ended(ending) => ending.into_reply(),
            _ => unreachable!(),
        }
    }
}
