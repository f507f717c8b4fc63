//! A command that asks the metaserver once, at work.
#![tactic(auto, unfolding(crate::specs::Simple::rest_of_simple, crate::specs::Simple::report_of_simple, qfs_machine::specs::Endings::report_of_ending, qfs_machine::specs::Endings::ended_by, qfs_model_actor::specs::Ask::ask, qfs_model_actor::specs::Hold::ask_or, qfs_model_actor::specs::Hold::end_with, qfs_model_actor::specs::Hold::give_back, qfs_model_actor::specs::Hold::on_meta, qfs_model_actor::specs::Work::request_in, qfs_model_actor::specs::Work::goes_on, qfs_model_actor::specs::Work::node_of_request))]

ghost use Rattle.std.specs.Prelude.{◌≡◌, ℕ, IfOk, IfSome};
ghost use Rattle.qfs_base.specs.declared.rules.Rules.{Rules};
ghost use Rattle.qfs_machine.specs.Asking.{AsksNext};
ghost use Rattle.qfs_model_actor.specs.Command.{work_of};
ghost use Rattle.qfs_model_actor.specs.Work.{ends, goes_on};
ghost use Rattle.qfs_commands.specs.Simple.{actor_command, report_of_simple};
ghost use Rattle.qfs_commands.specs.Simple.{rest_of_simple, IsAskedOnce};

use crate::ending::{SimpleEnding, ending_after};
use crate::simple::SimpleCommand;
use qfs_base::command::{Excerpt, Reply};
use qfs_base::numbers::NodeId;
use qfs_base::reply::NodeReply;
use qfs_base::request::NodeRequest;
use qfs_machine::{Ending, Protocol};
use std::alloc::AllocError;

/// What such a command waits for.
#[derive(Drop)]
pub enum Stage {
    /// The answer to its request.
    Asking,
    /// It has ended.
    Ended(SimpleEnding),
}

/// A command of one request at work: the command, and what it waits for. What is left of it is a
/// tree of questions, by the definition of the command.
#[derive(Drop)]
pub struct OneRequest {
    pub command: SimpleCommand,
    pub stage: Stage,
}

impl OneRequest {
    /// The command at its start. Takes no memory.
    pub fn new(command: SimpleCommand) -> OneRequest
        ensures { (rules : Rules) (number : ℕ) → rest_of_simple result.command result.stage
            ≡ work_of rules number (actor_command command) }
    {
        OneRequest {
            command,
            stage: Stage::Asking,
        }
    }
}

/// How a command ends at the reply to its request.
fn ending_at(command: &SimpleCommand, reply: NodeReply) -> SimpleEnding
    ensures { ends (report_of_simple result)
        ≡ goes_on (rest_of_simple command.now Stage.Asking) reply }
{
    match reply {
        NodeReply::Meta(answer) => match Ending::of_meta(&answer) {
            Some(ending) => SimpleEnding::Common(ending),
            None => ending_after(command, answer),
        },
        NodeReply::Chunk(_) => SimpleEnding::Common(Ending::Unnamed),
    }
}

impl Protocol for OneRequest {
    ghost rest = { λ it. rest_of_simple it.command it.stage };

    ghost may_ask = { IsAskedOnce };

    fn request(&self) -> Result<Option<NodeRequest>, AllocError> {
        match &self.stage {
            Stage::Asking => Ok(Some(NodeRequest::Meta(self.command.request()?))),
            Stage::Ended(_) => Ok(None),
        }
    }

    fn goes_to(&self) -> Option<NodeId> {
        match self.stage {
            Stage::Asking => Some(0),
            Stage::Ended(_) => None,
        }
    }

    fn took(&mut self, reply: NodeReply) {
        if let Stage::Asking = self.stage {
            self.stage = Stage::Ended(ending_at(&self.command, reply));
        }
    }

    fn into_reply(self) -> Reply<Excerpt> {
        let OneRequest { stage, command: _ } = self;
        match stage {
            Stage::Ended(ending) => ending.into_reply(),
            Stage::Asking => unreachable!(),
        }
    }
}
