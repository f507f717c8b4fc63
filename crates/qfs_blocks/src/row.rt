//! Slot records and condemned copies as rows of tables.
ghost use Rattle.std.specs.Prelude.{◌≡◌, true};

use qfs_base::image::{CondemnedEntry, SlotRecord, SlotRow};
use qfs_table::Row;
use std::cmp::Ordering;
use std::marker::Model;

/// A slot with its record. Contracts see the row itself.
#[derive(Drop)]
pub struct RecordRow {
    row: SlotRow,
}

impl Model for RecordRow {
    ghost use Rattle.qfs_base.specs.declared.image.SlotRow.{SlotRow};

    ghost Value = { SlotRow };

    ghost view = { λ it. it.row };
}

impl RecordRow {
    pub fn new(row: SlotRow) -> RecordRow
        ensures { result ≡ row }
    {
        RecordRow { row }
    }

    pub fn row(&self) -> SlotRow
        ensures { result ≡ self.now }
    {
        self.row
    }

    pub fn state(&self) -> &SlotRecord
        ensures { result.now ≡ self.now.state }
    {
        &self.row.state
    }

    pub fn set_state(&mut self, state: SlotRecord)
        ensures { self.new ≡ record self.old { state = state } }
    {
        self.row.state = state;
    }
}

impl Row for RecordRow {
    ghost use Rattle.qfs_laws_slots.specs.Slots.{slot_cmp_total};
    ghost use Rattle.qfs_model_meta.specs.Slots.{slot_cmp};

    ghost cmp = { slot_cmp };

    #[tactic(auto, unfolding(qfs_model_meta::specs::Slots::slot_cmp))]
    fn cmp_row(&self, other: &Self) -> Ordering {
        self.row
            .block
            .cmp(&other.row.block)
            .then(self.row.slot.cmp(&other.row.slot))
    }

    ghost total = { slot_cmp_total };
}

/// A condemned copy. Contracts see the entry itself.
#[derive(Drop)]
pub struct EntryRow {
    entry: CondemnedEntry,
}

impl Model for EntryRow {
    ghost use Rattle.qfs_base.specs.declared.image.CondemnedEntry.{CondemnedEntry};

    ghost Value = { CondemnedEntry };

    ghost view = { λ it. it.entry };
}

impl EntryRow {
    pub fn new(entry: CondemnedEntry) -> EntryRow
        ensures { result ≡ entry }
    {
        EntryRow { entry }
    }

    pub fn entry(&self) -> CondemnedEntry
        ensures { result ≡ self.now }
    {
        self.entry
    }

    pub fn set_ordered(&mut self)
        ensures { self.new ≡ record self.old { ordered = true } }
    {
        self.entry.ordered = true;
    }
}

impl Row for EntryRow {
    ghost use Rattle.std.specs.Cmp.{nat_cmp_total, on_total};
    ghost use Rattle.qfs_base.specs.declared.image.CondemnedEntry.{CondemnedEntry};
    ghost use Rattle.qfs_blocks.specs.Entries.{entry_cmp};

    ghost cmp = { entry_cmp };

    fn cmp_row(&self, other: &Self) -> Ordering {
        self.entry
            .condemned
            .number
            .cmp(&other.entry.condemned.number)
    }

    ghost total = { on_total (λ (entry : CondemnedEntry). entry.condemned.number) nat_cmp_total };
}
