//! The changes of slots: grants that come, fail, are given up or become current, and slots that
//! lose their copies. Each copy that is condemned leaves its server's load.
ghost use Rattle.std.specs.Prelude.{◌≡◌};
ghost use Rattle.qfs_model_meta.specs.Apply.{apply};
ghost use Rattle.qfs_state.specs.Planning.{MayMake, change_of};
ghost use Rattle.qfs_state.specs.Rooms.{HasRoom, TakesRoom, needs};
ghost use Rattle.qfs_state.specs.declared.prepared.Prepared.TheVariants.{ConfirmSlot, EmptySlot, FailGrant, GiveUp, GrantSlot};

use crate::state::State;
use qfs_base::numbers::{ActorId, LeaseId, ServerId};
use qfs_base::request::SlotId;
use qfs_blocks::NewGrant;
use qfs_place::{granted_copy, server_at};

impl State {
    /// A slot gets a grant of its next version on a server, in the life that is known of it, and
    /// the server's load rises by one. `lease` is 0 for a put. No grant of the slot is pending.
    pub(crate) fn grant_slot(
        &mut self,
        id: SlotId,
        server: ServerId,
        actor: ActorId,
        lease: LeaseId,
    )
        requires may { MayMake self.old.image (GrantSlot id server actor lease) }
        requires room { HasRoom (needs (GrantSlot id server actor lease)) self.old }
        ensures image { self.new.image
            ≡ apply self.old.image (change_of (GrantSlot id server actor lease)) }
        ensures room { TakesRoom (needs (GrantSlot id server actor lease)) self.old self.new }
    {
        let life = server_at(self.servers.as_slice(), server).life;
        let new = NewGrant {
            server,
            life,
            actor,
            lease,
        };
        self.blocks.put_grant(id, new);
        self.loads.count(server);
    }

    /// The pending grant of a slot is condemned and gone, if there is one, and its slot remembers
    /// its server, which failed the put.
    pub(crate) fn fail_grant(&mut self, id: SlotId)
        requires room { HasRoom (needs (FailGrant id)) self.old }
        ensures image { self.new.image ≡ apply self.old.image (change_of (FailGrant id)) }
        ensures room { TakesRoom (needs (FailGrant id)) self.old self.new }
    {
        let granted = granted_copy(self.blocks.slot_at(id.block, id.slot).grant);
        self.blocks.fail_grant(id, &self.leases, &self.servers);
        self.loads.uncount_live(self.servers.as_slice(), granted);
    }

    /// The pending grant of a slot is condemned and gone, if there is one.
    pub(crate) fn give_up(&mut self, id: SlotId)
        requires room { HasRoom (needs (GiveUp id)) self.old }
        ensures image { self.new.image ≡ apply self.old.image (change_of (GiveUp id)) }
        ensures room { TakesRoom (needs (GiveUp id)) self.old self.new }
    {
        let granted = granted_copy(self.blocks.slot_at(id.block, id.slot).grant);
        self.blocks.give_up(id, &self.leases, &self.servers);
        self.loads.uncount_live(self.servers.as_slice(), granted);
    }

    /// The pending grant of a slot becomes current, and the copy before it is condemned. Where no
    /// grant is pending the slot has no current copy after it.
    pub(crate) fn confirm_slot(&mut self, id: SlotId)
        requires room { HasRoom (needs (ConfirmSlot id)) self.old }
        ensures image { self.new.image ≡ apply self.old.image (change_of (ConfirmSlot id)) }
        ensures room { TakesRoom (needs (ConfirmSlot id)) self.old self.new }
    {
        let current = self.blocks.slot_at(id.block, id.slot).current;
        self.blocks.confirm_slot(id, &self.leases, &self.servers);
        self.loads.uncount_live(self.servers.as_slice(), current);
    }

    /// The current copy of a slot is condemned, and then its pending grant.
    pub(crate) fn empty_slot(&mut self, id: SlotId)
        requires room { HasRoom (needs (EmptySlot id)) self.old }
        ensures image { self.new.image ≡ apply self.old.image (change_of (EmptySlot id)) }
        ensures room { TakesRoom (needs (EmptySlot id)) self.old self.new }
    {
        let state = self.blocks.slot_at(id.block, id.slot);
        self.blocks.empty_slot(id, &self.leases, &self.servers);
        self.loads
            .uncount_live(self.servers.as_slice(), state.current);
        self.loads
            .uncount_live(self.servers.as_slice(), granted_copy(state.grant));
    }
}
