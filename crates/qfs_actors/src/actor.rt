//! An actor: its commands, one after another.
#![tactic(auto)]

ghost use Rattle.std.specs.Prelude.{◌≡◌, ◌<◌, ◌≤◌, ◌^◌, length, IfSome, OnOk, OnErr};
ghost use Rattle.qfs_model_actor.specs.Actor.{request_of, node_of, after_reply};
ghost use Rattle.qfs_machine.specs.Asking.{IsOut, after_asking};
ghost use Rattle.qfs_model_actor.specs.Shown.{lines_from};
ghost use Rattle.qfs_machine.specs.declared.machine.Readiness.{Readiness};
ghost use Rattle.qfs_actors.specs.Standing.{at_start, CanAsk};

use crate::actor_model::{ActorModel, Setting, model_after, model_at_start};
use crate::begin::Begin;
use crate::state::ActorState;
use qfs_base::command::{Command, ReplyLine, ReplyList};
use qfs_base::listing::Listing;
use qfs_base::numbers::{ActorId, NodeId};
use qfs_base::reply::NodeReply;
use qfs_base::request::NodeRequest;
use qfs_base::rules::Rules;
use qfs_machine::Ghost;
use std::alloc::{AllocError, Global};
use std::marker::Model;

/// An actor. Contracts see how it stands: its number and rules, its commands, the reports of those
/// that have ended with all bytes that were read, and what the nodes answered in the present one;
/// and how it stands to its next request. It keeps less: of the answers only what its next requests
/// and its reply lines need.
#[derive(Drop)]
pub struct Actor<M: Begin> {
    state: ActorState<M>,
    model: Ghost<ActorModel>,
}

impl<M: Begin> Model for Actor<M> {
    ghost use Rattle.qfs_actors.specs.Standing.{Standing};

    ghost Value = { Standing };

    ghost use Rattle.qfs_actors.specs.State.{IsOf, readiness_in};

    ghost view = { λ it.
        record { actor = it.model.value; readiness = readiness_in M.readiness it.state.machine } };

    ghost invariant = { λ it. IsOf M.rest M.readiness it.model.value it.state };
}

impl<M: Begin> Actor<M> {
    /// An actor at its first command. Takes no memory.
    pub fn new(alloc: Global, rules: Rules, number: ActorId, commands: Listing<Command>) -> Actor<M>
        requires tries { 1 ≤ rules.tries }
        requires few { length commands < 2 ^ 16 }
        ensures { result ≡ at_start rules number commands }
    {
        let setting = Setting { number, rules };
        let model = model_at_start(&setting, &commands);
        let state = ActorState::new(alloc, setting, commands.into_vec());
        Actor { state, model }
    }

    /// The actor's number.
    pub fn number(&self) -> ActorId
        ensures { result ≡ self.now.actor.number }
    {
        self.state.setting.number
    }

    /// The replies of the commands that have ended.
    pub fn replies(&self) -> &[ReplyLine]
        ensures { result.now ≡ lines_from self.now.actor.number 1 self.now.actor.ended }
    {
        self.state.replies.as_slice()
    }

    /// The same, once the actor isn't wanted any more.
    pub fn into_replies(self) -> ReplyList
        ensures { result ≡ lines_from self.actor.number 1 self.actor.ended }
    {
        let Actor { state, model: _ } = self;
        let ActorState { replies, .. } = state;
        Listing::from_vec(replies)
    }

    /// The node of the next request, or of the one that is out: 0 is the metaserver, s is server s.
    /// None where the actor has finished.
    pub fn goes_to(&self) -> Option<NodeId>
        ensures { result ≡ node_of self.now.actor }
    {
        self.state.goes_to()
    }

    /// Takes the memory for the next request and its reply. How the actor stands is as before. A
    /// refusal leaves it as before.
    pub fn ready(&mut self) -> Result<(), AllocError>
        requires { IsOut self.old.readiness → ⊥ }
        ensures same { self.new.actor ≡ self.old.actor }
        ensures ok { OnOk result (CanAsk self.new) }
        ensures err { OnErr result (self.new ≡ self.old) }
    {
        self.state.ready()
    }

    /// Hands the next request out, if the actor hasn't finished. Takes no memory.
    pub fn next(&mut self) -> Option<NodeRequest>
        requires { CanAsk self.old }
        ensures request { result ≡ request_of self.old.actor }
        ensures same { self.new.actor ≡ self.old.actor }
        ensures out { self.new.readiness ≡ after_asking result self.old.readiness }
        ensures askable { IfSome result M.may_ask }
    {
        self.state.next()
    }

    /// Goes on with a node's reply to the request that is out. Takes no memory.
    pub fn took(&mut self, reply: NodeReply)
        requires { IsOut self.old.readiness }
        ensures after { self.new.actor ≡ after_reply self.old.actor reply }
        ensures unready { self.new.readiness ≡ Readiness.Unready }
    {
        let model = model_after(&self.model, &reply);
        self.state.took(reply);
        self.model = model;
    }
}
