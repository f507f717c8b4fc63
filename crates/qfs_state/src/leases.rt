//! The changes of leases and of the actors that hold them.
ghost use Rattle.std.specs.Prelude.{◌≡◌};
ghost use Rattle.std.specs.List.{position, position_or_len};
ghost use Rattle.qfs_model_meta.specs.Apply.{apply};
ghost use Rattle.qfs_state.specs.DroppedActors.{is_above};
ghost use Rattle.qfs_state.specs.Planning.{MayMake, change_of};
ghost use Rattle.qfs_state.specs.Rooms.{HasRoom, TakesRoom, needs};
ghost use Rattle.qfs_state.specs.declared.prepared.Prepared.TheVariants.{DropActor, EndLease, GiveLease};

use crate::state::State;
use qfs_base::image::DroppedActor;
use qfs_base::numbers::{ActorId, FileId, LeaseId};

/// The place of the first dropped actor with a higher number.
fn first_above(dropped: &[DroppedActor], actor: ActorId) -> Option<usize>
    ensures { result ≡ position (is_above actor) dropped.now }
{
    dropped.iter().position(|other| actor < other.actor)
}

/// Where an actor that is dropped goes: before the first with a higher number, or at the end.
#[tactic(auto, using(crate::proofs::LeaseChanges::place_or_end))]
fn place_of(dropped: &[DroppedActor], actor: ActorId) -> usize
    ensures { result ≡ position_or_len (is_above actor) dropped.now }
{
    first_above(dropped, actor).unwrap_or(dropped.len())
}

impl State {
    /// An actor gets the next lease, on a file. It ends with the tick that brings the clock to
    /// `until`, or lasts until it is given back where that is 0.
    pub(crate) fn give_lease(&mut self, actor: ActorId, file: FileId, until: u64)
        requires room { HasRoom (needs (GiveLease actor file until)) self.old }
        ensures image { self.new.image
            ≡ apply self.old.image (change_of (GiveLease actor file until)) }
        ensures room { TakesRoom (needs (GiveLease actor file until)) self.old self.new }
    {
        self.leases.give(actor, file, until);
    }

    /// A lease ends, if it is live, and blocks no condemned copy any more.
    pub(crate) fn end_lease(&mut self, lease: LeaseId)
        ensures image { self.new.image ≡ apply self.old.image (change_of (EndLease lease)) }
        ensures room { TakesRoom (needs (EndLease lease)) self.old self.new }
    {
        self.leases.end(lease);
    }

    /// An actor that wasn't dropped before is dropped at the turn that is now.
    pub(crate) fn drop_actor(&mut self, actor: ActorId)
        requires may { MayMake self.old.image (DropActor actor) }
        requires room { HasRoom (needs (DropActor actor)) self.old }
        ensures image { self.new.image ≡ apply self.old.image (change_of (DropActor actor)) }
        ensures room { TakesRoom (needs (DropActor actor)) self.old self.new }
    {
        let at = place_of(self.dropped.as_slice(), actor);
        let turn = self.turn;
        self.dropped
            .insert_reserved(at, DroppedActor { actor, turn });
    }
}
