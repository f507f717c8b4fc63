//! What a script fixes for all of its nodes and actors.

use crate::layout::Layout;

/// The rules that every node and actor of a script goes by.
#[derive(Clone, Copy)]
pub struct Rules {
    pub layout: Layout,
    /// The ticks that a lease lives, 1 to 1,000; 0 where leases last until they are given back.
    pub term: u32,
    /// How often a get may open its file: 1 and up.
    pub tries: u32,
}
