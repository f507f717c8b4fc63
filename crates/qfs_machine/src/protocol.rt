//! A command that can say at each moment what it asks next, and a machine made of it.
#![tactic(auto)]

ghost use Rattle.std.specs.Prelude.{◌≡◌, None, IfOk, IfSome};
ghost use Rattle.qfs_base.specs.declared.request.NodeRequest.{NodeRequest};
ghost use Rattle.qfs_machine.specs.Asking.{AsksNext, node_asked};
ghost use Rattle.qfs_machine.specs.Kept.{Reports};
ghost use Rattle.qfs_machine.specs.declared.machine.Readiness.{Readiness};
ghost use Rattle.qfs_model_actor.specs.Work.{Work, goes_on, request_in};

use crate::machine::{Machine, Readiness};
use crate::pending::Pending;
use qfs_base::command::{Excerpt, Reply};
use qfs_base::numbers::NodeId;
use qfs_base::reply::NodeReply;
use qfs_base::request::NodeRequest;
use std::alloc::AllocError;
use std::marker::Model;

/// A command that keeps nothing but where it stands, makes its next request of that, and takes no
/// memory for a reply.
pub trait Protocol: Drop + Send + Sync {
    /// What is left of the command.
    ghost rest: { Self → Work };

    /// What it may ask, of all that can be asked.
    ghost may_ask: { NodeRequest → Type 0 };

    /// The next request, or None where the command has ended. Want of memory is its one failure.
    fn request(&self) -> Result<Option<NodeRequest>, AllocError>
        ensures request { IfOk result (AsksNext (rest self.now)) }
        ensures askable { IfOk result (λ request. IfSome request may_ask) };

    /// The node of the next request: 0 is the metaserver, s is server s. None where the command has
    /// ended.
    fn goes_to(&self) -> Option<NodeId>
        ensures { result ≡ node_asked (rest self.now) };

    /// Goes on with a node's reply to the next request.
    fn took(&mut self, reply: NodeReply)
        ensures { rest self.new ≡ goes_on (rest self.old) reply };

    /// The report of a command that has ended, as it is kept.
    fn into_reply(self) -> Reply<Excerpt>
        requires { request_in (rest self) ≡ None }
        ensures { Reports (rest self) result };
}

/// The machine of a command that is such a protocol. Contracts see where the command stands, and
/// how it stands to its next request.
#[derive(Drop)]
pub struct Session<P: Protocol> {
    protocol: P,
    pending: Pending,
}

impl<P: Protocol> Model for Session<P> {
    ghost use Rattle.qfs_machine.specs.Session.{AtWork, at_work_code};

    ghost Value = { AtWork P };

    ghost coded = { at_work_code P.code };

    ghost use Rattle.qfs_machine.specs.Asking.{IsPrepared};

    ghost view = { λ it. record {
      protocol = it.protocol;
      readiness = it.pending.readiness;
    } };

    ghost invariant = { λ it. IsPrepared P.may_ask (P.rest it.protocol)
        it.pending.readiness it.pending.request };
}

impl<P: Protocol> Session<P> {
    /// The command as it stands. Takes no memory.
    pub fn new(protocol: P) -> Session<P>
        ensures protocol { result.protocol ≡ protocol }
        ensures unready { result.readiness ≡ Readiness.Unready }
    {
        Session {
            protocol,
            pending: Pending::nothing(),
        }
    }
}

impl<P: Protocol> Machine for Session<P> {
    ghost rest = { λ it. P.rest it.protocol };

    ghost readiness = { λ it. it.readiness };

    ghost may_ask = { P.may_ask };

    fn ready(&mut self) -> Result<(), AllocError> {
        match self.pending.readiness {
            Readiness::Unready => {
                let request = self.protocol.request()?;
                self.pending = Pending::ready(request);
                Ok(())
            }
            _ => Ok(()),
        }
    }

    fn goes_to(&self) -> Option<NodeId> {
        self.protocol.goes_to()
    }

    fn next(&mut self) -> Option<NodeRequest> {
        self.pending.hand_out()
    }

    fn took(&mut self, reply: NodeReply) {
        self.protocol.took(reply);
        self.pending = Pending::nothing();
    }

    fn into_reply(self) -> Reply<Excerpt> {
        let Session { protocol, .. } = self;
        protocol.into_reply()
    }
}
