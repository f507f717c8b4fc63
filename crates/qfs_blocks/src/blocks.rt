//! The slots of blocks, and the condemned copies.
ghost use Rattle.std.specs.Prelude.{◌≡◌, ◌≤◌, ◌+◌, [], filter, find, max, min, IsOk, OnOk, OnErr};
ghost use Rattle.std.specs.Option.{option_copied, option_map};
ghost use Rattle.qfs_base.specs.declared.image.SlotRow.{SlotRow};
ghost use Rattle.qfs_base.specs.Sizes.{LAST_U32};
ghost use Rattle.qfs_model_meta.specs.Slots.{count_on, is_slot, slot_at, slot_id, slots_of};
ghost use Rattle.qfs_blocks.specs.Entries.{condemned_of, next_entry};
ghost use Rattle.qfs_blocks.specs.Records.{is_after, is_next_on};

use crate::entries::Entries;
use crate::records::Records;
use crate::row::RecordRow;
use qfs_base::chunk::BlockId;
use qfs_base::image::{Servers, SlotRecord};
use qfs_base::numbers::{FileId, Life, ServerId, Slot};
use qfs_base::reply::Condemned;
use qfs_base::request::SlotId;
use qfs_lease::LeaseView;
use qfs_table::Run;
use std::alloc::{AllocError, Global};
use std::marker::Model;

/// The slot records by slot, the condemned copies by number, the number that the next of these
/// gets, and how many more of each have room. Contracts see these five.
#[derive(Drop)]
pub struct Blocks {
    pub(crate) records: Records,
    pub(crate) entries: Entries,
}

impl Model for Blocks {
    ghost use Rattle.qfs_blocks.specs.BlockTables.{BlockTables};

    ghost Value = { BlockTables };

    ghost view = { λ it. record {
      slots = it.records.slots;
      condemned = it.entries.entries;
      next = it.entries.next;
      spare_slots = it.records.spare;
      spare_condemned = it.entries.spare;
    } };
}

impl Blocks {
    /// No slots and no condemned copies, which take no memory. The first condemned copy gets the
    /// number 1.
    pub fn new(alloc: Global) -> Blocks
        ensures slots { result.slots ≡ [] }
        ensures condemned { result.condemned ≡ [] }
        ensures next { result.next ≡ 1 }
        ensures spare_slots { result.spare_slots ≡ 0 }
        ensures spare_condemned { result.spare_condemned ≡ 0 }
    {
        Blocks {
            records: Records::new(alloc),
            entries: Entries::new(alloc, 1),
        }
    }

    /// Makes room for so many more slot records and so many more condemned copies, those that have
    /// room already included. On want of memory nothing changes but the room for slot records,
    /// which may have grown.
    pub fn reserve(&mut self, entries: u32) -> Result<(), AllocError>
        ensures slots { self.new.slots ≡ self.old.slots }
        ensures condemned { self.new.condemned ≡ self.old.condemned }
        ensures next { self.new.next ≡ self.old.next }
        ensures ok_slots { OnOk result (self.new.spare_slots ≡ max self.old.spare_slots entries) }
        ensures ok_condemned { OnOk result
            (self.new.spare_condemned ≡ max self.old.spare_condemned entries) }
        ensures enough { entries ≤ self.old.spare_slots → entries ≤ self.old.spare_condemned
            → IsOk result }
        ensures least_slots { self.old.spare_slots ≤ self.new.spare_slots }
        ensures err { OnErr result (self.new.spare_condemned ≡ self.old.spare_condemned) }
    {
        let entries = entries as usize;
        self.records.reserve(entries)?;
        self.entries.reserve(entries)
    }

    /// The record of a slot, or None where it has none.
    pub fn look(&self, block: BlockId, slot: Slot) -> Option<&SlotRecord>
        ensures { option_copied result ≡ option_map (λ (row : SlotRow). row.state)
            (find (is_slot block slot) self.now.slots) }
    {
        self.records.look(SlotId { block, slot })
    }

    /// What is known of a slot, whether it has a record or not.
    pub fn slot_at(&self, block: BlockId, slot: Slot) -> SlotRecord
        ensures { result ≡ slot_at self.now.slots block slot }
    {
        self.records.state(SlotId { block, slot })
    }

    /// The first slot behind one that has a record, or the first of all.
    pub fn next_slot(&self, after: Option<SlotId>) -> Option<SlotId>
        ensures { result ≡ option_map slot_id (find (is_after after) self.now.slots) }
    {
        self.records.next_slot(after)
    }

    /// The first slot behind one, or the first of all, whose current copy is on a server in a life.
    /// Each slot behind is passed once.
    pub fn next_on(&self, server: ServerId, life: Life, after: Option<SlotId>) -> Option<SlotId>
        ensures { result
            ≡ option_map slot_id (find (is_next_on server life after) self.now.slots) }
    {
        self.records.next_on(server, life, after)
    }

    /// The records of a file's slots, by index and slot.
    pub fn rows_of(&self, file: FileId) -> Run<'_, RecordRow>
        ensures { result ≡ slots_of file self.now.slots }
    {
        self.records.rows_of(file)
    }

    /// The records of all slots behind one, or of all slots, by file, index and slot.
    pub fn rows_behind(&self, after: Option<SlotId>) -> Run<'_, RecordRow>
        ensures { result ≡ filter (is_after after) self.now.slots }
    {
        self.records.rows_behind(after)
    }

    /// How many current copies and grants are on a server in a life, where more than the last value
    /// of 32 bits count as that. Each slot is passed once.
    pub fn count_on(&self, server: ServerId, life: Life) -> u32
        ensures { result ≡ min (count_on server life self.now.slots) LAST_U32 }
    {
        self.records.count_on(server, life)
    }

    /// The number that the next condemned copy gets.
    pub fn next_number(&self) -> u64
        ensures { result ≡ self.now.next }
    {
        self.entries.next()
    }

    /// The first condemned copy above a number that may be ordered deleted: its server is up, it
    /// is live, and no live lease blocks it. Each copy above is passed once.
    pub fn order<V: LeaseView>(
        &self,
        after: u64,
        leases: &V,
        servers: &Servers,
    ) -> Option<Condemned>
        ensures { result ≡ option_map condemned_of
            (next_entry servers.now (V.leases leases.now) after self.now.condemned) }
    {
        self.entries.next_to_go(after, leases, servers)
    }
}
