//! The nodes and actors of a script: how they start, whose turn it may be, a node's turn with an
//! actor, and what is left of them at the end.
#![tactic(auto)]

mod ending;
mod node;
mod start;
mod turns;

pub use ending::take_apart;
pub use node::{NodeState, turn_on};
pub use start::{Prepared, prepare, take_devices};
pub use turns::current_turn;
