//! The slots of blocks: the table of their records, in their order.
ghost use Rattle.std.specs.Prelude.{◌≡◌, filter};
ghost use Rattle.qfs_base.specs.Table.{IsRising};
ghost use Rattle.qfs_model_meta.specs.Slots.{never_granted, slot_at, granted_copy, slot_cmp, slots_of, is_of_block};

use crate::rows::{Key, rows_of};
use qfs_base::chunk::{BlockId, Copy};
use qfs_base::image::{Grant, SlotRecord, SlotRow};
use qfs_base::numbers::{FileId, Slot};
use qfs_base::request::SlotId;
use qfs_base::server_set::ServerSet;
use std::cmp::Ordering;

impl Key<SlotRow> for SlotRow {
    ghost use Rattle.qfs_model_meta.specs.Slots.{slot_cmp};

    ghost order = { slot_cmp };

    #[tactic(auto, unfolding(qfs_model_meta::specs::Slots::slot_cmp))]
    fn order(&self, row: &SlotRow) -> Ordering {
        self.block.cmp(&row.block).then(self.slot.cmp(&row.slot))
    }
}

impl Key<SlotRow> for SlotId {
    ghost use Rattle.qfs_model_meta.specs.Slots.{slot_order};

    ghost order = { slot_order };

    fn order(&self, row: &SlotRow) -> Ordering {
        self.block.cmp(&row.block).then(self.slot.cmp(&row.slot))
    }
}

impl Key<SlotRow> for BlockId {
    ghost use Rattle.qfs_model_meta.specs.Slots.{block_order};

    ghost order = { block_order };

    fn order(&self, row: &SlotRow) -> Ordering {
        self.cmp(&row.block)
    }
}

impl Key<SlotRow> for FileId {
    ghost use Rattle.qfs_model_meta.specs.Slots.{file_order};

    ghost order = { file_order };

    fn order(&self, row: &SlotRow) -> Ordering {
        self.cmp(&row.block.file)
    }
}

/// A slot that was never granted: versions start at 1.
#[tactic(auto, unfolding(qfs_model_meta::specs::Slots::never_granted))]
fn never_granted() -> SlotRecord
    ensures { result ≡ never_granted }
{
    SlotRecord {
        next: 1,
        current: None,
        grant: None,
        failed: ServerSet::none(),
    }
}

/// The rows of a file.
pub fn slots_of(slots: &[SlotRow], file: FileId) -> &[SlotRow]
    requires { IsRising slot_cmp slots.now }
    ensures { result.now ≡ slots_of file slots.now }
{
    rows_of(slots, &file)
}

/// The rows of a block.
pub fn slots_of_block(slots: &[SlotRow], block: BlockId) -> &[SlotRow]
    requires { IsRising slot_cmp slots.now }
    ensures { result.now ≡ filter (is_of_block block) slots.now }
{
    rows_of(slots, &block)
}

/// What is known of a slot.
pub fn slot_at(slots: &[SlotRow], block: BlockId, slot: Slot) -> SlotRecord
    requires { IsRising slot_cmp slots.now }
    ensures { result ≡ slot_at slots.now block slot }
{
    match rows_of(slots, &SlotId { block, slot }).first() {
        Some(row) => row.state,
        None => never_granted(),
    }
}

/// The copy that a pending grant allows.
#[tactic(auto, unfolding(qfs_model_meta::specs::Slots::granted_copy))]
pub fn granted_copy(grant: Option<Grant>) -> Option<Copy>
    ensures { result ≡ granted_copy grant }
{
    grant.map(|grant| grant.copy)
}
