//! A machine carries out one command of an actor, a request at a time.
ghost use Rattle.std.specs.Prelude.{◌≡◌, None, IfSome, OnOk, OnErr};
ghost use Rattle.qfs_model_actor.specs.Work.{Work, goes_on, request_in};
ghost use Rattle.qfs_machine.specs.declared.machine.Readiness.{Readiness};
ghost use Rattle.qfs_machine.specs.Asking.{IsOut, MayHandOut, after_asking, node_asked};
ghost use Rattle.qfs_base.specs.declared.request.NodeRequest.{NodeRequest};
ghost use Rattle.qfs_machine.specs.Kept.{Reports};

use qfs_base::command::{Excerpt, Reply};
use qfs_base::numbers::NodeId;
use qfs_base::reply::NodeReply;
use qfs_base::request::NodeRequest;
use std::alloc::AllocError;

/// How a machine stands to its next request.
#[derive(Clone, Copy, PartialEq, Eq)]
pub enum Readiness {
    /// It hasn't taken the memory for the request and its reply.
    Unready,
    /// It has.
    Ready,
    /// The request was handed out, and no reply has come yet.
    Out,
}

/// A command at work: it asks a node a request, goes on with the node's reply, and so on until it
/// has ended with a report.
///
/// What is left of the command is a tree of questions; `next` asks what the tree asks, and `took`
/// goes on in the tree as the reply says, whatever it is.
pub trait Machine: Drop + Send + Sync {
    /// What is left of the command.
    ghost rest: { Self → Work };

    /// How it stands to its next request.
    ghost readiness: { Self → Readiness };

    /// What it may ask, of all that can be asked.
    ghost may_ask: { NodeRequest → Type 0 };

    /// Takes the memory for the next request and for what its reply makes the machine keep, so that
    /// `next`, `took` and `into_reply` take none. Where memory is wanting it stands as before.
    fn ready(&mut self) -> Result<(), AllocError>
        requires { IsOut (readiness self.old) → ⊥ }
        ensures rest { rest self.new ≡ rest self.old }
        ensures ok { OnOk result (readiness self.new ≡ Readiness.Ready) }
        ensures err { OnErr result (readiness self.new ≡ readiness self.old) };

    /// The node of the next request, or of the one that is out: 0 is the metaserver, s is server s.
    /// None where the machine has ended.
    fn goes_to(&self) -> Option<NodeId>
        ensures { result ≡ node_asked (rest self.now) };

    /// Hands the next request out, if the machine hasn't ended.
    fn next(&mut self) -> Option<NodeRequest>
        requires { MayHandOut (readiness self.old) (rest self.old) }
        ensures request { result ≡ request_in (rest self.old) }
        ensures rest { rest self.new ≡ rest self.old }
        ensures out { readiness self.new ≡ after_asking result (readiness self.old) }
        ensures askable { IfSome result may_ask };

    /// Goes on with a node's reply to the request that is out.
    fn took(&mut self, reply: NodeReply)
        requires { IsOut (readiness self.old) }
        ensures rest { rest self.new ≡ goes_on (rest self.old) reply }
        ensures unready { readiness self.new ≡ Readiness.Unready };

    /// The report of a machine that has ended, as it is kept: of bytes that were read only what is
    /// shown of them.
    fn into_reply(self) -> Reply<Excerpt>
        requires { request_in (rest self) ≡ None }
        ensures { Reports (rest self) result };
}
