//! The state, and how a run begins.
ghost use Rattle.std.specs.Prelude.{◌≡◌, ◌≤◌, replicate, IfOk};
ghost use Rattle.qfs_base.specs.Sizes.{MOST_SERVERS};
ghost use Rattle.qfs_model_meta.specs.Step.{first_server, opening};

use qfs_base::image::{DroppedActor, ServerView, Servers};
use qfs_base::listing::Listing;
use qfs_base::numbers::Turn;
use qfs_base::reserved::ReservedList;
use qfs_blocks::Blocks;
use qfs_lease::Leases;
use qfs_namespace::Namespace;
use qfs_place::Loads;
use std::alloc::{AllocError, Global};
use std::marker::Model;

/// A server as every run begins.
const FIRST_SERVER: ServerView = ServerView {
    up: true,
    leaving: false,
    life: 1,
    until: 0,
};

/// The metaserver's state. Contracts see what an image of it would say, and the room that was
/// promised for more rows.
#[derive(Drop)]
pub struct State {
    pub(crate) turn: Turn,
    pub(crate) clock: u64,
    pub(crate) servers: Servers,
    pub(crate) names: Namespace,
    pub(crate) blocks: Blocks,
    pub(crate) leases: Leases,
    /// By number.
    pub(crate) dropped: ReservedList<DroppedActor>,
    /// How many live copies and grants stand on each server, so that none is counted anew at each
    /// grant.
    pub(crate) loads: Loads,
}

impl Model for State {
    ghost use Rattle.qfs_state.specs.Held.{Held, IsHeld, image_of, room_of};

    ghost Value = { Held };

    ghost view = { λ it. record {
      image = image_of it.turn it.clock it.servers it.names it.blocks it.leases it.dropped.items;
      room = room_of it.names it.blocks it.leases it.dropped.spare;
    } };

    ghost invariant = { λ it. IsHeld it.servers it.blocks it.leases it.dropped.items it.loads };
}

/// So many servers, all up.
#[tactic(auto, unfolding(qfs_model_meta::specs::Step::first_server))]
fn first_servers(alloc: Global, servers: u16) -> Result<Servers, AllocError>
    ensures { IfOk result (λ it. it ≡ replicate servers first_server) }
{
    let servers = vec![in alloc; FIRST_SERVER; servers as usize]?;
    Ok(Listing::from_vec(servers))
}

impl State {
    /// The state as every run begins: 1 to 64 servers, all up, and nothing else. The first file,
    /// the first lease and the first condemned copy get the number 1.
    #[tactic(auto, unfolding(qfs_model_meta::specs::Step::opening))]
    pub fn new(alloc: Global, servers: u16) -> Result<State, AllocError>
        requires some { 1 ≤ servers }
        requires few { servers ≤ MOST_SERVERS }
        ensures { IfOk result (λ it. it.image ≡ opening servers) }
    {
        let servers = first_servers(alloc, servers)?;
        let loads = Loads::new(alloc, servers.as_slice())?;
        Ok(State {
            turn: 0,
            clock: 0,
            servers,
            names: Namespace::new(alloc),
            blocks: Blocks::new(alloc),
            leases: Leases::new(alloc),
            dropped: ReservedList::new(alloc),
            loads,
        })
    }
}
