//! The calls that test, take what memory they need, and change.
ghost use Rattle.std.specs.Prelude.{◌≡◌, ◌≤◌, ◌<◌, ◌+◌, [], ◌∷◌, ◌++◌, length, max, Err, None, IsOk, OnOk, OnErr, IfOk, IfErr};
ghost use Rattle.qfs_base.specs.Sizes.{LAST_U64};
ghost use Rattle.qfs_model_meta.specs.Slots.{confirmed_slot, failed_slot, granted_slot, slot_at, ungranted_slot, with_slot};
ghost use Rattle.qfs_blocks.specs.Answers.{grant_error, granted_as, pending_copy};
ghost use Rattle.qfs_blocks.specs.BlockTables.{record_changed};
ghost use Rattle.qfs_blocks.specs.Entries.{new_entry};
ghost use Rattle.qfs_blocks.specs.Records.{HasPlace};

use crate::blocks::Blocks;
use crate::change::{Confirm, Fail, Ungrant};
use crate::error::BlockError;
use crate::state::NewGrant;
use qfs_base::chunk::Copy as ChunkCopy;
use qfs_base::image::Grant;
use qfs_base::numbers::{ServerId, Version};
use qfs_base::request::SlotId;
use qfs_lease::LeaseView;
use std::alloc::AllocError;

/// The copy that a pending grant of a version allows.
fn granted_as(grant: Option<Grant>, given: Version) -> Result<ChunkCopy, BlockError>
    ensures { result ≡ granted_as given grant }
{
    match grant {
        Some(grant) => {
            let held = grant.copy.version;
            if held == given {
                Ok(grant.copy)
            } else {
                Err(BlockError::Stale {
                    held: Some(held),
                    given,
                })
            }
        }
        None => Err(BlockError::Stale { held: None, given }),
    }
}

impl Blocks {
    /// Gives a slot a grant of its next version. A pending grant refuses it (Taken). A first
    /// record takes memory where none has room (NoMemory).
    pub fn grant(&mut self, id: SlotId, new: NewGrant) -> Result<Version, BlockError>
        ensures version { IfOk result
            (λ version. version ≡ (slot_at self.old.slots id.block id.slot).next) }
        ensures free { OnOk result ((slot_at self.old.slots id.block id.slot).grant ≡ None) }
        ensures slots { OnOk result (self.new.slots ≡ with_slot id.block id.slot
            (granted_slot new.server new.life new.actor new.lease
            (slot_at self.old.slots id.block id.slot)) self.old.slots) }
        ensures rest { self.new
            ≡ record self.old { slots = self.new.slots; spare_slots = self.new.spare_slots } }
        ensures error { IfErr result
            (λ error. error ≡ grant_error (slot_at self.old.slots id.block id.slot).grant) }
        ensures enough { (slot_at self.old.slots id.block id.slot).grant ≡ None
            → HasPlace id self.old.spare_slots self.old.slots → IsOk result }
        ensures room { HasPlace id self.old.spare_slots self.old.slots
            → length self.new.slots + self.new.spare_slots
            ≡ length self.old.slots + self.old.spare_slots }
        ensures err { OnErr result (self.new ≡ self.old) }
    {
        let state = self.slot_at(id.block, id.slot);
        if let Some(grant) = state.grant {
            return Err(BlockError::Taken {
                version: grant.copy.version,
            });
        }
        self.make_place(id)?;
        self.put_grant(id, new);
        Ok(state.next)
    }

    /// Makes room for a first record of a slot, where it has none and there is no room.
    fn make_place(&mut self, id: SlotId) -> Result<(), AllocError>
        ensures rest { self.new ≡ record self.old { spare_slots = self.new.spare_slots } }
        ensures place { OnOk result (HasPlace id self.new.spare_slots self.new.slots) }
        ensures enough { HasPlace id self.old.spare_slots self.old.slots → IsOk result }
        ensures stays { HasPlace id self.old.spare_slots self.old.slots → self.new ≡ self.old }
        ensures err { OnErr result (self.new ≡ self.old) }
    {
        if self.records.has(id) {
            Ok(())
        } else {
            self.records.reserve(1)
        }
    }

    /// The copy that the pending grant of a version allows. It isn't there where no slot of the
    /// block has a record (Gone), or the pending version is another or none (Stale).
    fn pending(&self, id: SlotId, given: Version) -> Result<ChunkCopy, BlockError>
        ensures { result ≡ pending_copy id.block id.slot given self.now.slots }
    {
        if self.records.has_block(id.block) {
            granted_as(self.slot_at(id.block, id.slot).grant, given)
        } else {
            Err(BlockError::Gone)
        }
    }

    /// Makes the pending grant of a version current, and gives the copy before it. It refuses Gone
    /// where no slot of the block has a record, and Stale where the pending version is another or
    /// none. It takes no memory.
    pub fn confirm(&mut self, id: SlotId, version: Version) -> Result<Option<ChunkCopy>, BlockError>
        ensures before { IfOk result
            (λ copy. copy ≡ (slot_at self.old.slots id.block id.slot).current) }
        ensures ok { OnOk result
            (self.new ≡ record_changed id.block id.slot confirmed_slot self.old) }
        ensures pending { OnOk result
            (IsOk (pending_copy id.block id.slot version self.old.slots)) }
        ensures error { IfErr result
            (λ error. pending_copy id.block id.slot version self.old.slots ≡ Err error) }
        ensures err { OnErr result (self.new ≡ self.old) }
    {
        self.pending(id, version)?;
        let before = self.slot_at(id.block, id.slot).current;
        self.change(id, &Confirm);
        Ok(before)
    }

    /// Gives the pending grant of a version up, and gives its copy. It refuses as `confirm`, and
    /// takes no memory.
    pub fn abandon(&mut self, id: SlotId, version: Version) -> Result<ChunkCopy, BlockError>
        ensures copy { result ≡ pending_copy id.block id.slot version self.old.slots }
        ensures ok { OnOk result
            (self.new ≡ record_changed id.block id.slot ungranted_slot self.old) }
        ensures err { OnErr result (self.new ≡ self.old) }
    {
        match self.pending(id, version) {
            Ok(copy) => {
                self.change(id, &Ungrant);
                Ok(copy)
            }
            Err(error) => Err(error),
        }
    }

    /// A slot remembers a server that failed a put, if it has a record.
    pub fn fail(&mut self, id: SlotId, server: ServerId)
        requires low { 1 ≤ server }
        requires high { server ≤ 64 }
        ensures { self.new ≡ record_changed id.block id.slot (failed_slot server) self.old }
    {
        self.change(id, &Fail { server });
    }

    /// Condemns a copy of a slot, which has to be live. It takes memory only where none has room.
    pub fn condemn<V: LeaseView>(
        &mut self,
        id: SlotId,
        copy: ChunkCopy,
        leases: &V,
    ) -> Result<(), AllocError>
        requires { self.old.next < LAST_U64 }
        ensures condemned { OnOk result (self.new.condemned ≡ self.old.condemned
            ++ new_entry self.old.next id.block id.slot copy (V.next_number leases.now) ∷ []) }
        ensures next { OnOk result (self.new.next ≡ self.old.next + 1) }
        ensures spare { OnOk result
            (self.new.spare_condemned + 1 ≡ max self.old.spare_condemned 1) }
        ensures slots { self.new.slots ≡ self.old.slots }
        ensures spare_slots { self.new.spare_slots ≡ self.old.spare_slots }
        ensures enough { 1 ≤ self.old.spare_condemned → IsOk result }
        ensures err { OnErr result (self.new ≡ self.old) }
    {
        self.entries.reserve(1)?;
        self.entries.condemn(id, copy, leases.next());
        Ok(())
    }
}
