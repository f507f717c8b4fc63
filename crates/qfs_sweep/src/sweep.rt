//! A sweep at work.
#![tactic(auto, unfolding(crate::specs::Rest::rest_of_sweep, crate::specs::Rest::report_of_sweep, qfs_model_actor::specs::Sweep::sweep_on, qfs_model_actor::specs::Sweep::sweep_work, qfs_model_actor::specs::Sweep::erase, qfs_model_actor::specs::Sweep::say_swept, qfs_model_actor::specs::Ask::ask, qfs_model_actor::specs::Ask::ask_server, qfs_model_actor::specs::Hold::ask_or, qfs_model_actor::specs::Work::request_in))]

ghost use Rattle.std.specs.Prelude.{◌≡◌};
ghost use Rattle.qfs_model_actor.specs.Sweep.{sweep_work};
ghost use Rattle.qfs_sweep.specs.Rest.{rest_of_sweep, IsAskedBySweep};

use crate::stage::{Stage, node_at, request_at};
use crate::turn::{stage_after, sweep_on};
use qfs_base::command::{Excerpt, Reply};
use qfs_base::numbers::NodeId;
use qfs_base::reply::NodeReply;
use qfs_base::request::NodeRequest;
use qfs_machine::Protocol;
use std::alloc::AllocError;
use std::marker::Model;

/// A sweep at work. Contracts see what it waits for. What is left of it is a tree of questions, by
/// the definition of a sweep.
#[derive(Drop)]
pub struct Sweep {
    stage: Stage,
}

impl Model for Sweep {
    ghost use Rattle.qfs_sweep.specs.Rest.{IsSweepStage};
    ghost use Rattle.qfs_sweep.specs.declared.stage.Stage.{Stage};

    ghost Value = { Stage };

    ghost view = { λ it. it.stage };

    ghost invariant = { λ it. IsSweepStage it.stage };
}

impl Sweep {
    /// A sweep that deletes at most so many copies. Takes no memory.
    pub fn new(budget: u32) -> Sweep
        ensures { rest_of_sweep result ≡ sweep_work budget }
    {
        let stage = sweep_on(budget, 0, 0);
        Sweep { stage }
    }
}

impl Protocol for Sweep {
    ghost rest = { rest_of_sweep };

    ghost may_ask = { IsAskedBySweep };

    fn request(&self) -> Result<Option<NodeRequest>, AllocError> {
        Ok(request_at(self.stage))
    }

    fn goes_to(&self) -> Option<NodeId> {
        node_at(self.stage)
    }

    fn took(&mut self, reply: NodeReply) {
        self.stage = stage_after(self.stage, &reply);
    }

    fn into_reply(self) -> Reply<Excerpt> {
        match self.stage {
            Stage::Ended(ending) => ending.into_reply(),
            _ => unreachable!(),
        }
    }
}
