//! What rows are found by.
use crate::row::{EntryRow, RecordRow};
use qfs_base::chunk::BlockId;
use qfs_base::numbers::FileId;
use qfs_base::request::SlotId;
use qfs_table::{Key, WholeKey};
use std::cmp::Ordering;

/// A slot, which has one record at most.
#[derive(Drop)]
pub struct OfSlot {
    pub id: SlotId,
}

impl Key<RecordRow> for OfSlot {
    ghost use Rattle.qfs_model_meta.specs.Slots.{slot_order};
    ghost use Rattle.qfs_blocks.specs.KeyLaws.{slot_falls};

    ghost order = { λ key. slot_order key.id };

    fn order(&self, row: &RecordRow) -> Ordering {
        let row = row.row();
        self.id
            .block
            .cmp(&row.block)
            .then(self.id.slot.cmp(&row.slot))
    }

    ghost falls = { λ key. slot_falls key.id };
}

impl WholeKey<RecordRow> for OfSlot {
    ghost use Rattle.qfs_blocks.specs.KeyLaws.{slot_alone};

    ghost alone = { λ key. slot_alone key.id };
}

/// A block, whose slots stand next to each other.
#[derive(Drop)]
pub struct OfBlock {
    pub block: BlockId,
}

impl Key<RecordRow> for OfBlock {
    ghost use Rattle.qfs_model_meta.specs.Slots.{block_order};
    ghost use Rattle.qfs_blocks.specs.KeyLaws.{block_falls};

    ghost order = { λ key. block_order key.block };

    fn order(&self, row: &RecordRow) -> Ordering {
        self.block.cmp(&row.row().block)
    }

    ghost falls = { λ key. block_falls key.block };
}

/// A file, whose slots stand next to each other.
#[derive(Drop)]
pub struct OfFile {
    pub file: FileId,
}

impl Key<RecordRow> for OfFile {
    ghost use Rattle.qfs_model_meta.specs.Slots.{file_order};
    ghost use Rattle.qfs_blocks.specs.KeyLaws.{file_falls};

    ghost order = { λ key. file_order key.file };

    fn order(&self, row: &RecordRow) -> Ordering {
        self.file.cmp(&row.row().block.file)
    }

    ghost falls = { λ key. file_falls key.file };
}

/// The slots behind one, or all of them.
#[derive(Drop)]
pub struct After {
    pub after: Option<SlotId>,
}

impl Key<RecordRow> for After {
    ghost use Rattle.qfs_blocks.specs.Records.{after_order};
    ghost use Rattle.qfs_blocks.specs.KeyLaws.{after_falls};

    ghost order = { λ key. after_order key.after };

    #[tactic(auto, unfolding(qfs_model_meta::specs::LeasedGrants::comes_after, qfs_model_meta::specs::Slots::slot_id))]
    fn order(&self, row: &RecordRow) -> Ordering {
        let is_after = match self.after {
            Some(id) => OfSlot { id }.order(row).is_lt(),
            None => true,
        };
        if is_after {
            Ordering::Equal
        } else {
            Ordering::Greater
        }
    }

    ghost falls = { λ key. after_falls key.after };
}

/// The number of a condemned copy.
#[derive(Drop)]
pub struct Numbered {
    pub number: u64,
}

impl Key<EntryRow> for Numbered {
    ghost use Rattle.qfs_blocks.specs.Entries.{entry_order};
    ghost use Rattle.qfs_blocks.specs.KeyLaws.{number_falls};

    ghost order = { λ key. entry_order key.number };

    fn order(&self, row: &EntryRow) -> Ordering {
        self.number.cmp(&row.entry().condemned.number)
    }

    ghost falls = { λ key. number_falls key.number };
}

impl WholeKey<EntryRow> for Numbered {
    ghost use Rattle.qfs_blocks.specs.KeyLaws.{number_alone};

    ghost alone = { λ key. number_alone key.number };
}

/// The condemned copies above a number.
#[derive(Drop)]
pub struct AboveNumber {
    pub number: u64,
}

impl Key<EntryRow> for AboveNumber {
    ghost use Rattle.qfs_blocks.specs.Entries.{above_order};
    ghost use Rattle.qfs_blocks.specs.KeyLaws.{above_falls};

    ghost order = { λ key. above_order key.number };

    fn order(&self, row: &EntryRow) -> Ordering {
        if self.number < row.entry().condemned.number {
            Ordering::Equal
        } else {
            Ordering::Greater
        }
    }

    ghost falls = { λ key. above_falls key.number };
}
