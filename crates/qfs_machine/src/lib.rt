//! What each machine is that carries out one command of an actor: the calls that it has, and what
//! they mean by the definition of the command; and what all machines share, how any command may end
//! and the request that comes next.
#![tactic(auto)]

mod ending;
mod ghost_value;
mod machine;
mod pending;
mod protocol;

pub use ending::Ending;
pub use ghost_value::Ghost;
pub use machine::{Machine, Readiness};
pub use pending::Pending;
pub use protocol::{Protocol, Session};
