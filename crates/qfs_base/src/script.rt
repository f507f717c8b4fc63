//! A script: what a run is asked to do.

use crate::command::Command;
use crate::layout::Layout;
use crate::listing::Listing;
use crate::order::Order;

/// The commands of one actor, in order.
pub type Commands = Listing<Command>;

/// The actors that run side by side, by number.
pub type Phase = Listing<Commands>;

/// A whole script. Actors are numbered from 1 through all phases.
#[derive(Drop)]
pub struct Script {
    pub layout: Layout,
    /// The number of chunk servers, 1 to 64.
    pub servers: u16,
    /// The ticks that a lease lives, 1 to 1,000; 0 where leases last until they are given back.
    pub term: u32,
    /// Whether the output tells of each chunk whether its copy is there.
    pub audit: bool,
    pub phases: Listing<Phase>,
    pub order: Option<Order>,
}

/// Why a script's line is refused.
#[derive(Clone, Copy, PartialEq, Eq)]
pub enum ScriptCause {
    TooBig,
    NotText,
    Word,
    Count,
    Number,
    Path,
    Hex,
    Limit,
    NoOrder,
    /// The line is of a form that isn't built yet.
    NotYet,
}
