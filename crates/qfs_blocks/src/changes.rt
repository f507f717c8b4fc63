//! The changes of slots and condemned copies: what each change of the metaserver's state does to
//! them. They take no memory and can't fail: what they need is tested and reserved before. Where
//! nothing else is said, a change of a slot that has no record changes nothing.
ghost use Rattle.std.specs.Prelude.{◌≡◌, ◌≤◌, ◌<◌, ◌+◌, length, IfSome};
ghost use Rattle.qfs_base.specs.declared.image.Grant.{Grant};
ghost use Rattle.qfs_base.specs.Sizes.{LAST_U64};
ghost use Rattle.qfs_base.specs.Table.{change_where, without};
ghost use Rattle.qfs_model_meta.specs.Slots.{forget_file, granted_slot, seal_file, slot_at, with_slot};
ghost use Rattle.qfs_blocks.specs.BlockTables.{copy_condemned, grant_confirmed, grant_failed, grant_given_up, is_known, slot_emptied, unknown_condemned};
ghost use Rattle.qfs_blocks.specs.Entries.{is_entry_on, mark_entry, sweep_entry};
ghost use Rattle.qfs_blocks.specs.Records.{HasPlace, is_of};

use crate::blocks::Blocks;
use crate::change::{Confirm, Empty, Fail, Ungrant};
use crate::row::RecordRow;
use crate::state::{NewGrant, is_that_copy};
use qfs_base::chunk::Copy as ChunkCopy;
use qfs_base::image::Servers;
use qfs_base::numbers::{FileId, ServerId};
use qfs_base::request::SlotId;
use qfs_lease::LeaseView;
use qfs_place::{granted_copy, is_live};
use qfs_table::Change;

impl Blocks {
    /// A slot gets a grant of the next version. A first record takes one from the room that is
    /// there.
    pub fn put_grant(&mut self, id: SlotId, new: NewGrant)
        requires { HasPlace id self.old.spare_slots self.old.slots }
        ensures slots { self.new.slots ≡ with_slot id.block id.slot
            (granted_slot new.server new.life new.actor new.lease
            (slot_at self.old.slots id.block id.slot)) self.old.slots }
        ensures spare { length self.new.slots + self.new.spare_slots
            ≡ length self.old.slots + self.old.spare_slots }
        ensures rest { self.new
            ≡ record self.old { slots = self.new.slots; spare_slots = self.new.spare_slots } }
    {
        self.records.grant(id, new);
    }

    /// A file is closed: all grants of its slots become current, and no server counts as failed
    /// any more.
    pub fn seal(&mut self, file: FileId)
        ensures { self.new ≡ record self.old { slots = seal_file file self.old.slots } }
    {
        self.records.seal(file);
    }

    /// The records of a file's slots go. Their room stays.
    pub fn forget(&mut self, file: FileId)
        ensures { self.new ≡ record self.old { slots = forget_file file self.old.slots } }
    {
        self.records.forget(file);
    }

    /// The record of a slot changes, if it has one.
    pub(crate) fn change<C: Change<RecordRow>>(&mut self, id: SlotId, change: &C)
        ensures { self.new ≡ record self.old {
          slots = change_where (is_of id) (C.changed change.now) self.old.slots;
        } }
    {
        self.records.change(id, change);
    }

    /// A copy of a slot is condemned, if there is one and it is live.
    pub(crate) fn condemn_any<V: LeaseView>(
        &mut self,
        id: SlotId,
        copy: Option<ChunkCopy>,
        leases: &V,
        servers: &Servers,
    )
        requires room { 1 ≤ self.old.spare_condemned }
        requires number { self.old.next < LAST_U64 }
        ensures { self.new ≡ copy_condemned servers.now (V.next_number leases.now)
            id.block id.slot self.old copy }
    {
        match copy {
            Some(copy) if is_live(servers.as_slice(), copy) => self
                .entries
                .condemn(id, copy, leases.next()),
            _ => {}
        }
    }

    /// The pending grant of a slot is condemned and gone, if there is one.
    pub fn give_up<V: LeaseView>(&mut self, id: SlotId, leases: &V, servers: &Servers)
        requires room { 1 ≤ self.old.spare_condemned }
        requires number { self.old.next < LAST_U64 }
        ensures { self.new ≡ grant_given_up servers.now (V.next_number leases.now)
            id.block id.slot self.old (slot_at self.old.slots id.block id.slot).grant }
    {
        if let Some(grant) = self.slot_at(id.block, id.slot).grant {
            self.condemn_any(id, Some(grant.copy), leases, servers);
            self.change(id, &Ungrant);
        }
    }

    /// The same, where the server of the grant failed the put: the slot remembers that.
    pub fn fail_grant<V: LeaseView>(&mut self, id: SlotId, leases: &V, servers: &Servers)
        requires room { 1 ≤ self.old.spare_condemned }
        requires number { self.old.next < LAST_U64 }
        requires low { IfSome (slot_at self.old.slots id.block id.slot).grant
            (λ (grant : Grant). 1 ≤ grant.copy.server) }
        requires high { IfSome (slot_at self.old.slots id.block id.slot).grant
            (λ (grant : Grant). grant.copy.server ≤ 64) }
        ensures { self.new ≡ grant_failed servers.now (V.next_number leases.now)
            id.block id.slot self.old (slot_at self.old.slots id.block id.slot).grant }
    {
        if let Some(grant) = self.slot_at(id.block, id.slot).grant {
            self.condemn_any(id, Some(grant.copy), leases, servers);
            self.change(id, &Ungrant);
            let server = grant.copy.server;
            self.change(id, &Fail { server });
        }
    }

    /// The pending grant of a slot becomes current, and the copy before it is condemned.
    pub fn confirm_slot<V: LeaseView>(&mut self, id: SlotId, leases: &V, servers: &Servers)
        requires room { 1 ≤ self.old.spare_condemned }
        requires number { self.old.next < LAST_U64 }
        ensures { self.new ≡ grant_confirmed servers.now (V.next_number leases.now)
            id.block id.slot self.old (slot_at self.old.slots id.block id.slot) }
    {
        let current = self.slot_at(id.block, id.slot).current;
        self.condemn_any(id, current, leases, servers);
        self.change(id, &Confirm);
    }

    /// The current copy of a slot is condemned, and then its pending grant.
    pub fn empty_slot<V: LeaseView>(&mut self, id: SlotId, leases: &V, servers: &Servers)
        requires room { 2 ≤ self.old.spare_condemned }
        requires number { self.old.next + 1 < LAST_U64 }
        ensures { self.new ≡ slot_emptied servers.now (V.next_number leases.now)
            id.block id.slot self.old (slot_at self.old.slots id.block id.slot) }
    {
        let state = self.slot_at(id.block, id.slot);
        self.condemn_any(id, state.current, leases, servers);
        self.condemn_any(id, granted_copy(state.grant), leases, servers);
        self.change(id, &Empty);
    }

    /// A copy that was found on a server, in its known life, is condemned unless it is the current,
    /// the granted or a condemned copy of its slot.
    pub fn condemn_stray<V: LeaseView>(
        &mut self,
        id: SlotId,
        copy: ChunkCopy,
        leases: &V,
        servers: &Servers,
    )
        requires room { 1 ≤ self.old.spare_condemned }
        requires number { self.old.next < LAST_U64 }
        ensures { self.new ≡ unknown_condemned servers.now (V.next_number leases.now)
            id.block id.slot copy self.old (is_known id.block id.slot copy self.old) }
    {
        if !self.knows(id, copy) {
            self.condemn_any(id, Some(copy), leases, servers);
        }
    }

    /// Whether a copy is the current, the granted or a condemned copy of its slot.
    fn knows(&self, id: SlotId, copy: ChunkCopy) -> bool
        ensures { result ≡ is_known id.block id.slot copy self.now }
    {
        let state = self.slot_at(id.block, id.slot);
        is_that_copy(copy, state.current)
            || is_that_copy(copy, granted_copy(state.grant))
            || self.entries.knows(id, copy)
    }

    /// A server came up in a new life: the condemned copies on it are gone. Their room stays.
    pub fn forget_server(&mut self, server: ServerId)
        ensures { self.new
            ≡ record self.old { condemned = without (is_entry_on server) self.old.condemned } }
    {
        self.entries.forget_server(server);
    }

    /// A condemned copy is ordered deleted, if it is there.
    pub fn mark(&mut self, number: u64)
        ensures { self.new
            ≡ record self.old { condemned = mark_entry number self.old.condemned } }
    {
        self.entries.mark(number);
    }

    /// A condemned copy is gone, if it is there and ordered. Its room stays.
    pub fn swept(&mut self, number: u64)
        ensures { self.new
            ≡ record self.old { condemned = sweep_entry number self.old.condemned } }
    {
        self.entries.sweep(number);
    }
}
