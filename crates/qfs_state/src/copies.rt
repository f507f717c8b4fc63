//! The changes of condemned copies.
ghost use Rattle.std.specs.Prelude.{◌≡◌};
ghost use Rattle.qfs_model_meta.specs.Apply.{apply};
ghost use Rattle.qfs_state.specs.Planning.{change_of};
ghost use Rattle.qfs_state.specs.Rooms.{HasRoom, TakesRoom, needs};
ghost use Rattle.qfs_state.specs.declared.prepared.Prepared.TheVariants.{CondemnStray, MarkOrdered, TakeCondemned};

use crate::state::State;
use qfs_base::chunk::{ChunkKey, Copy as ChunkCopy};
use qfs_base::numbers::{Life, ServerId};
use qfs_base::request::SlotId;

impl State {
    /// The deletion of a condemned copy is ordered, if it is there.
    pub(crate) fn mark_ordered(&mut self, number: u64)
        ensures image { self.new.image ≡ apply self.old.image (change_of (MarkOrdered number)) }
        ensures room { TakesRoom (needs (MarkOrdered number)) self.old self.new }
    {
        self.blocks.mark(number);
    }

    /// A condemned copy is gone, if it is there and its deletion was ordered.
    pub(crate) fn take_condemned(&mut self, number: u64)
        ensures image { self.new.image ≡ apply self.old.image (change_of (TakeCondemned number)) }
        ensures room { TakesRoom (needs (TakeCondemned number)) self.old self.new }
    {
        self.blocks.swept(number);
    }

    /// What a server was found to store in a life is condemned, if it is live and neither the
    /// current nor the granted nor a condemned copy of its slot.
    pub(crate) fn condemn_stray(&mut self, server: ServerId, life: Life, key: ChunkKey)
        requires room { HasRoom (needs (CondemnStray server life key)) self.old }
        ensures image { self.new.image
            ≡ apply self.old.image (change_of (CondemnStray server life key)) }
        ensures room { TakesRoom (needs (CondemnStray server life key)) self.old self.new }
    {
        let id = SlotId {
            block: key.block,
            slot: key.slot,
        };
        let copy = ChunkCopy {
            server,
            life,
            version: key.version,
        };
        self.blocks
            .condemn_stray(id, copy, &self.leases, &self.servers);
    }
}
