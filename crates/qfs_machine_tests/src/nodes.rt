//! A machine among nodes that answer as a test says.
ghost use Rattle.std.specs.Prelude.{◌≡◌};
ghost use Rattle.qfs_machine.specs.declared.machine.Readiness.{Readiness};

use qfs_base::command::{Excerpt, Reply};
use qfs_base::reply::NodeReply;
use qfs_base::request::NodeRequest;
use qfs_machine::Machine;
use std::alloc::AllocError;
use std::test::Fail;

/// The metaserver and the chunk servers of a test.
pub trait Nodes: Drop {
    /// The answer of the node that the request goes to.
    fn serve(&mut self, request: NodeRequest) -> Result<NodeReply, AllocError>;
}

/// The report of a machine whose requests the nodes answer.
pub fn run<M: Machine, N: Nodes>(machine: M, nodes: &mut N) -> Result<Reply<Excerpt>, Fail>
    requires { M.readiness machine ≡ Readiness.Unready }
{
    let mut machine = machine;
    for _turn in 0..100u8 {
        machine.ready()?;
        match machine.next() {
            Some(request) => machine.took(nodes.serve(request)?),
            None => return Ok(machine.into_reply()),
        }
    }
    Err(Fail::new("it goes on"))
}
