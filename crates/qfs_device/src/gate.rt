//! The gate of a turn.

use qfs_base::numbers::{ActorId, NodeId};

/// Is called inside each turn, and tells clauses nothing. A test may use it to hold a turn up.
pub trait Gate: Drop + Send + Sync {
    /// An actor has its turn at a node.
    fn enter(&self, node: NodeId, actor: ActorId);
}

/// Lets every turn pass.
#[derive(Clone, Copy)]
pub struct NoGate;

impl Gate for NoGate {
    fn enter(&self, _node: NodeId, _actor: ActorId) {}
}
