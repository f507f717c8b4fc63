//! What is read of a state: its parts, each as the image has it.
ghost use Rattle.std.specs.Prelude.{◌≡◌};
ghost use Rattle.std.specs.Option.{option_map};
ghost use Rattle.qfs_base.specs.declared.image.CondemnedRow.{CondemnedRow};
ghost use Rattle.qfs_blocks.specs.ImageLaws.{IsNextLease};
ghost use Rattle.qfs_model_meta.specs.Condemned.{next_to_go};
ghost use Rattle.qfs_model_meta.specs.Dropped.{dropped_at};
ghost use Rattle.qfs_model_meta.specs.Placing.{census};
ghost use Rattle.qfs_state.specs.Held.{AreServers, AreSlots};
ghost use Rattle.std.specs.Prelude.{length};

use crate::state::State;
use qfs_base::image::{DroppedActor, Servers};
use qfs_base::numbers::{ActorId, Turn};
use qfs_base::reply::Condemned;
use qfs_blocks::Blocks;
use qfs_lease::Leases;
use qfs_namespace::Namespace;
use qfs_place::Loads;

/// The turn at which an actor was dropped, if it was.
#[tactic(auto, unfolding(qfs_model_meta::specs::Dropped::dropped_at))]
fn dropped_at(dropped: &[DroppedActor], actor: ActorId) -> Option<Turn>
    ensures { result ≡ dropped_at actor dropped.now }
{
    dropped
        .iter()
        .find(|dropped| dropped.actor == actor)
        .map(|dropped| dropped.turn)
}

impl State {
    /// How many logged requests it has served.
    pub fn turn(&self) -> Turn
        ensures { result ≡ self.now.image.turn }
    {
        self.turn
    }

    /// The reading of the clock, in ticks.
    pub fn clock(&self) -> u64
        ensures { result ≡ self.now.image.clock }
    {
        self.clock
    }

    /// The servers, by number from 1.
    pub fn servers(&self) -> &Servers
        ensures servers { result.now ≡ self.now.image.servers }
        ensures fit { AreServers self.now.image.servers }
    {
        &self.servers
    }

    /// The name tree with its files, and the file history.
    pub fn names(&self) -> &Namespace
        ensures tree { result.now.tree ≡ self.now.image.tree }
        ensures next_file { result.now.next_file ≡ self.now.image.next_file }
        ensures history { result.now.history ≡ self.now.image.history }
    {
        &self.names
    }

    /// The slots of blocks and the condemned copies.
    pub fn blocks(&self) -> &Blocks
        ensures slots { result.now.slots ≡ self.now.image.slots }
        ensures next { result.now.next ≡ self.now.image.next_condemned }
        ensures fit { AreSlots (length self.now.image.servers) self.now.image.slots }
    {
        &self.blocks
    }

    /// The live leases.
    pub fn leases(&self) -> &Leases
        ensures leases { result.now.leases ≡ self.now.image.leases }
        ensures next { result.now.next ≡ self.now.image.next_lease }
        ensures numbers { IsNextLease self.now.image.next_lease self.now.image.leases }
    {
        &self.leases
    }

    /// The load of each server.
    pub fn loads(&self) -> &Loads
        ensures { result.now ≡ census self.now.image.servers self.now.image.slots }
    {
        &self.loads
    }

    /// The turn at which an actor was dropped, or None.
    pub fn dropped_at(&self, actor: ActorId) -> Option<Turn>
        ensures { result ≡ dropped_at actor self.now.image.dropped }
    {
        dropped_at(self.dropped.as_slice(), actor)
    }

    /// The first condemned copy above a number that may be ordered deleted: its server is up, it
    /// is live, and no live lease blocks it. Each copy above is passed once.
    #[tactic(auto, using(crate::proofs::OrderLaws::next_alike))]
    pub fn next_to_go(&self, after: u64) -> Option<Condemned>
        ensures { result ≡ option_map (λ (row : CondemnedRow). row.condemned)
            (next_to_go self.now.image.servers after self.now.image.condemned) }
    {
        self.blocks.order(after, &self.leases, &self.servers)
    }
}
