//! What an actor keeps: the commands that haven't begun, the machine of the present one, and what
//! those reported that have ended.
#![tactic(auto)]

ghost use Rattle.std.specs.Prelude.{◌≡◌, ◌+◌, ◌<◌, ◌≤◌, ◌^◌, None, IfSome, OnOk, OnErr};
ghost use Rattle.std.specs.Prelude.{length, drop, option_map, vec_len, vec_capacity};
ghost use Rattle.std.specs.Vec.Iter.{into_iter_items};
ghost use Rattle.qfs_model_actor.specs.Actor.{Actor, starting, after_reply, request_of, node_of};
ghost use Rattle.qfs_model_actor.specs.Work.{request_in};
ghost use Rattle.qfs_machine.specs.Asking.{IsOut, after_asking};
ghost use Rattle.qfs_machine.specs.declared.machine.Readiness.{Readiness};
ghost use Rattle.qfs_actors.specs.State.{commands_of, first_work, readiness_in};
ghost use Rattle.qfs_actors.specs.State.{AddsLine, IsOf, IsReadyIn, MayHandOutIn};

use crate::actor_model::Setting;
use crate::begin::Begin;
use qfs_base::command::{Command, ReplyLine};
use qfs_base::numbers::NodeId;
use qfs_base::reply::NodeReply;
use qfs_base::request::NodeRequest;
use std::alloc::{AllocError, Global};
use std::vec;

/// What an actor keeps.
#[derive(Drop)]
pub struct ActorState<M: Begin> {
    pub alloc: Global,
    pub setting: Setting,
    /// The commands that haven't begun.
    pub ahead: vec::IntoIter<Command>,
    /// The present command; None where all have ended.
    pub machine: Option<M>,
    /// The reports of the commands that have ended.
    pub replies: Vec<ReplyLine>,
}

/// Begins the next command behind so many that have ended, if there is one.
fn begin_next<M: Begin>(
    alloc: Global,
    setting: &Setting,
    ended: usize,
    ahead: &mut vec::IntoIter<Command>,
) -> Option<M>
    requires tries { 1 ≤ setting.now.rules.tries }
    requires few { ended + length (into_iter_items ahead.old) < 2 ^ 16 }
    ensures rest { option_map M.rest result
        ≡ first_work setting.now.rules (ended + 1) (into_iter_items ahead.old) }
    ensures ahead { into_iter_items ahead.new ≡ drop 1 (into_iter_items ahead.old) }
    ensures unready { readiness_in M.readiness result ≡ Readiness.Unready }
{
    match ahead.next() {
        Some(command) => {
            let number = (ended + 1) as u16;
            Some(M::begin(alloc, setting.rules, number, command))
        }
        None => None,
    }
}

impl<M: Begin> ActorState<M> {
    /// At the first command. Takes no memory.
    pub fn new(alloc: Global, setting: Setting, commands: Vec<Command>) -> ActorState<M>
        requires tries { 1 ≤ setting.rules.tries }
        requires few { length commands.items < 2 ^ 16 }
        ensures of { IsOf M.rest M.readiness
            (starting setting.rules setting.number commands.items) result }
        ensures unready { readiness_in M.readiness result.machine ≡ Readiness.Unready }
    {
        let mut ahead = commands.into_iter();
        let machine = begin_next(alloc, &setting, 0, &mut ahead);
        ActorState {
            alloc,
            setting,
            ahead,
            machine,
            replies: Vec::new(alloc),
        }
    }

    /// Takes the memory for the next request, for its reply and for the line of the command's
    /// report.
    pub fn ready(&mut self) -> Result<(), AllocError>
        requires { IsOut (readiness_in M.readiness self.old.machine) → ⊥ }
        ensures of { (actor : Actor) → IsOf M.rest M.readiness actor self.old
            → IsOf M.rest M.readiness actor self.new }
        ensures ok { OnOk result (IsReadyIn M.readiness self.new.machine) }
        ensures err { OnErr result
            (readiness_in M.readiness self.new.machine ≡ readiness_in M.readiness self.old.machine) }
    {
        match &mut self.machine {
            Some(machine) => {
                self.replies.reserve(1)?;
                machine.ready()
            }
            None => Ok(()),
        }
    }

    /// The node of the next request, or of the one that is out.
    pub fn goes_to(&self) -> Option<NodeId>
        ensures { (actor : Actor) → IsOf M.rest M.readiness actor self.now
            → result ≡ node_of actor }
    {
        match &self.machine {
            Some(machine) => machine.goes_to(),
            None => None,
        }
    }

    /// Hands the next request out.
    pub fn next(&mut self) -> Option<NodeRequest>
        requires { MayHandOutIn M.rest M.readiness self.old.machine }
        ensures of { (actor : Actor) → IsOf M.rest M.readiness actor self.old
            → IsOf M.rest M.readiness actor self.new }
        ensures request { (actor : Actor) → IsOf M.rest M.readiness actor self.old
            → result ≡ request_of actor }
        ensures out { readiness_in M.readiness self.new.machine
            ≡ after_asking result (readiness_in M.readiness self.old.machine) }
        ensures askable { IfSome result M.may_ask }
    {
        match &mut self.machine {
            Some(machine) => machine.next(),
            None => None,
        }
    }

    /// Goes on with a node's reply.
    pub fn took(&mut self, reply: NodeReply)
        requires out { IsOut (readiness_in M.readiness self.old.machine) }
        requires of { (actor : Actor) × IsOf M.rest M.readiness actor self.old }
        ensures of { (actor : Actor) → IsOf M.rest M.readiness actor self.old
            → IsOf M.rest M.readiness (after_reply actor reply) self.new }
        ensures unready { readiness_in M.readiness self.new.machine ≡ Readiness.Unready }
    {
        match self.machine.take() {
            Some(mut machine) => {
                machine.took(reply);
                if machine.goes_to().is_some() {
                    self.machine = Some(machine);
                } else {
                    self.end(machine);
                }
            }
            None => unreachable!(),
        }
    }

    /// Keeps the report of the present command, which has ended, and begins the next one.
    fn end(&mut self, machine: M)
        requires ended { request_in (M.rest machine) ≡ None }
        requires room { vec_len self.old.replies < vec_capacity self.old.replies }
        requires tries { 1 ≤ self.old.setting.rules.tries }
        requires few { commands_of self.old < 2 ^ 16 }
        ensures setting { self.new.setting ≡ self.old.setting }
        ensures line { AddsLine (M.rest machine) self.old self.new }
        ensures rest { option_map M.rest self.new.machine
            ≡ first_work self.old.setting.rules (length self.old.replies.items + 2)
            (into_iter_items self.old.ahead) }
        ensures ahead { into_iter_items self.new.ahead ≡ drop 1 (into_iter_items self.old.ahead) }
        ensures unready { readiness_in M.readiness self.new.machine ≡ Readiness.Unready }
    {
        let ended = self.replies.len() + 1;
        let line = ReplyLine {
            actor: self.setting.number,
            command: ended as u16,
            reply: machine.into_reply(),
        };
        if self.replies.push(line).is_err() {
            unreachable!()
        }
        self.machine = begin_next(self.alloc, &self.setting, ended, &mut self.ahead);
    }
}
