//! The records of slots, in their order.
ghost use Rattle.std.specs.Prelude.{◌≡◌, ◌≤◌, ◌+◌, [], filter, find, length, max, min, IsOk, IfOk, OnOk, OnErr};
ghost use Rattle.std.specs.Option.{option_copied, option_map, is_some};
ghost use Rattle.std.specs.List.{list_any};
ghost use Rattle.qfs_base.specs.declared.image.SlotRow.{SlotRow};
ghost use Rattle.qfs_base.specs.Sizes.{LAST_U32};
ghost use Rattle.qfs_base.specs.Table.{IsRising, change_where};
ghost use Rattle.qfs_model_meta.specs.Slots.{count_on, forget_file, granted_slot, is_of_block, seal_file, slot_at, slot_cmp, slot_id, slots_of, with_slot};
ghost use Rattle.qfs_blocks.specs.Records.{is_after, is_next_on, is_of, HasPlace};

use crate::change::{GrantTo, Seal};
use crate::key::{After, OfBlock, OfFile, OfSlot};
use crate::lists::{record_list, record_rows};
use crate::row::RecordRow;
use crate::scan::{count_on, first_on, id_of};
use crate::state::{NewGrant, granted, never_granted};
use qfs_base::chunk::BlockId;
use qfs_base::image::{RecordList, SlotRecord, SlotRow};
use qfs_base::numbers::{FileId, Life, ServerId};
use qfs_base::request::SlotId;
use qfs_table::{Change, Run, Table};
use std::alloc::{AllocError, Global};
use std::marker::Model;

/// The records by slot, and how many more have room. Contracts see both.
#[derive(Drop)]
pub struct Records {
    table: Table<RecordRow>,
}

impl Model for Records {
    ghost use Rattle.qfs_blocks.specs.BlockTables.{SlotRecords};
    ghost use Rattle.qfs_blocks.specs.Records.{AreRecords};

    ghost Value = { SlotRecords };

    ghost view = { λ it. record { slots = it.table.rows; spare = it.table.spare } };

    ghost invariant = { λ it. AreRecords it.table };
}

impl Records {
    /// No records, which take no memory.
    pub fn new(alloc: Global) -> Records
        ensures slots { result.slots ≡ [] }
        ensures spare { result.spare ≡ 0 }
    {
        Records {
            table: Table::new(alloc),
        }
    }

    /// The records of a list, which is in the order of slots.
    pub fn from_list(alloc: Global, list: RecordList) -> Result<Records, AllocError>
        requires { IsRising slot_cmp list }
        ensures slots { IfOk result (λ it. it.slots ≡ list) }
        ensures spare { IfOk result (λ it. it.spare ≡ 0) }
    {
        let rows = record_rows(alloc, list)?;
        Ok(Records {
            table: Table::from_rows(alloc, rows)?,
        })
    }

    /// All records, by slot.
    pub fn list(&self, alloc: Global) -> Result<RecordList, AllocError>
        ensures { IfOk result (λ list. list ≡ self.now.slots) }
    {
        record_list(alloc, self.table.iter())
    }

    /// Makes room for so many more, those that have room already included. On want of memory all
    /// stays as it was.
    pub fn reserve(&mut self, entries: usize) -> Result<(), AllocError>
        ensures slots { self.new.slots ≡ self.old.slots }
        ensures ok { OnOk result (self.new.spare ≡ max self.old.spare entries) }
        ensures enough { entries ≤ self.old.spare → IsOk result }
        ensures err { OnErr result (self.new ≡ self.old) }
    {
        self.table.reserve(entries)
    }

    /// The record of a slot, or None where it has none.
    pub fn look(&self, id: SlotId) -> Option<&SlotRecord>
        ensures { option_copied result
            ≡ option_map (λ (row : SlotRow). row.state) (find (is_of id) self.now.slots) }
    {
        match self.table.get(&OfSlot { id }) {
            Some(row) => Some(row.state()),
            None => None,
        }
    }

    /// What is known of a slot, whether it has a record or not.
    pub fn state(&self, id: SlotId) -> SlotRecord
        ensures { result ≡ slot_at self.now.slots id.block id.slot }
    {
        match self.look(id) {
            Some(state) => *state,
            None => never_granted(),
        }
    }

    /// Whether a slot has a record.
    pub fn has(&self, id: SlotId) -> bool
        ensures found { result ≡ is_some (find (is_of id) self.now.slots) }
        ensures rising { IsRising slot_cmp self.now.slots }
    {
        self.table.get(&OfSlot { id }).is_some()
    }

    /// Whether a slot of a block has a record.
    pub fn has_block(&self, block: BlockId) -> bool
        ensures { result ≡ list_any (is_of_block block) self.now.slots }
    {
        self.table.get(&OfBlock { block }).is_some()
    }

    /// The first slot behind one that has a record, or the first of all.
    pub fn next_slot(&self, after: Option<SlotId>) -> Option<SlotId>
        ensures { result ≡ option_map slot_id (find (is_after after) self.now.slots) }
    {
        match self.table.get(&After { after }) {
            Some(row) => Some(id_of(row)),
            None => None,
        }
    }

    /// The same of those whose current copy is on a server in a life. Each slot behind is passed
    /// once.
    pub fn next_on(&self, server: ServerId, life: Life, after: Option<SlotId>) -> Option<SlotId>
        ensures { result
            ≡ option_map slot_id (find (is_next_on server life after) self.now.slots) }
    {
        first_on(self.table.run(&After { after }), server, life)
    }

    /// The records of a file's slots, by index and slot.
    #[tactic(auto, unfolding(qfs_model_meta::specs::Slots::slots_of, qfs_model_meta::specs::Slots::is_of_file))]
    pub fn rows_of(&self, file: FileId) -> Run<'_, RecordRow>
        ensures { result ≡ slots_of file self.now.slots }
    {
        self.table.run(&OfFile { file })
    }

    /// The records behind a slot, or all of them.
    pub fn rows_behind(&self, after: Option<SlotId>) -> Run<'_, RecordRow>
        ensures { result ≡ filter (is_after after) self.now.slots }
    {
        self.table.run(&After { after })
    }

    /// How many current copies and grants are on a server in a life. Each slot is passed once.
    pub fn count_on(&self, server: ServerId, life: Life) -> u32
        ensures { result ≡ min (count_on server life self.now.slots) LAST_U32 }
    {
        count_on(self.table.iter(), server, life)
    }

    /// Gives a slot a grant. A first record takes one from the room that is there.
    pub fn grant(&mut self, id: SlotId, new: NewGrant)
        requires { HasPlace id self.old.spare self.old.slots }
        ensures slots { self.new.slots ≡ with_slot id.block id.slot
            (granted_slot new.server new.life new.actor new.lease
            (slot_at self.old.slots id.block id.slot)) self.old.slots }
        ensures spare { length self.new.slots + self.new.spare
            ≡ length self.old.slots + self.old.spare }
    {
        if self.has(id) {
            self.change(id, &GrantTo { new });
        } else {
            self.table.insert(RecordRow::new(SlotRow {
                block: id.block,
                slot: id.slot,
                state: granted(&never_granted(), new),
            }));
        }
    }

    /// Changes the record of a slot, if it has one.
    pub fn change<C: Change<RecordRow>>(&mut self, id: SlotId, change: &C)
        ensures slots { self.new.slots
            ≡ change_where (is_of id) (C.changed change.now) self.old.slots }
        ensures spare { self.new.spare ≡ self.old.spare }
    {
        self.table.change(&OfSlot { id }, change);
    }

    /// Makes all grants of a file's slots current.
    pub fn seal(&mut self, file: FileId)
        ensures slots { self.new.slots ≡ seal_file file self.old.slots }
        ensures spare { self.new.spare ≡ self.old.spare }
    {
        self.table.change(&OfFile { file }, &Seal);
    }

    /// Takes the records of a file's slots away. The room stays.
    pub fn forget(&mut self, file: FileId)
        ensures slots { self.new.slots ≡ forget_file file self.old.slots }
        ensures spare { self.new.spare ≡ self.old.spare }
    {
        self.table.remove_run(&OfFile { file });
    }
}
