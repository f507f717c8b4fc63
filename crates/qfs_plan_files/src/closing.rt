//! Which slots of a file lack a grant.
ghost use Rattle.std.specs.Prelude.{◌≡◌, find, map};
ghost use Rattle.qfs_model_meta.specs.PutRequests.{block_slots, file_slots, first_ungranted, lacks_grant};
ghost use Rattle.qfs_model_meta.specs.Slots.{slot_id, slots_of};

use qfs_base::chunk::BlockId;
use qfs_base::numbers::FileId;
use qfs_base::request::SlotId;
use qfs_base::sizes::SLOTS;
use qfs_blocks::Blocks;

/// Whether a slot has no pending grant.
#[tactic(auto, unfolding(qfs_model_meta::specs::PutRequests::lacks_grant))]
fn lacks_grant(blocks: &Blocks, id: SlotId) -> bool
    ensures { result ≡ lacks_grant blocks.now.slots id }
{
    blocks.slot_at(id.block, id.slot).grant.is_none()
}

/// The first slot of a block without a pending grant.
#[tactic(auto, using(qfs_planning::specs::Walks::find_steps), unfolding(qfs_model_meta::specs::PutRequests::block_slots))]
fn ungranted_in_block(blocks: &Blocks, block: BlockId) -> Option<SlotId>
    ensures { result ≡ find (lacks_grant blocks.now.slots) (block_slots block) }
{
    for slot in 0..SLOTS {
        let id = SlotId { block, slot };
        if lacks_grant(blocks, id) {
            return Some(id);
        }
    }
    None
}

/// The first slot of so many blocks of a file without a pending grant.
#[tactic(auto, using(qfs_planning::specs::Walks::find_flat_steps), unfolding(qfs_model_meta::specs::PutRequests::file_slots))]
fn ungranted_in_blocks(blocks: &Blocks, file: FileId, count: u32) -> Option<SlotId>
    ensures { result ≡ find (lacks_grant blocks.now.slots) (file_slots file count) }
{
    for index in 0..count {
        if let Some(id) = ungranted_in_block(blocks, BlockId { file, index }) {
            return Some(id);
        }
    }
    None
}

/// The first slot of a file without a pending grant among those that have a record.
#[tactic(auto, unfolding(qfs_model_meta::specs::Slots::slot_id))]
fn ungranted_in_table(blocks: &Blocks, file: FileId) -> Option<SlotId>
    ensures { result ≡ find (lacks_grant blocks.now.slots)
        (map slot_id (slots_of file blocks.now.slots)) }
{
    for row in blocks.rows_of(file) {
        let row = row.row();
        let id = SlotId {
            block: row.block,
            slot: row.slot,
        };
        if lacks_grant(blocks, id) {
            return Some(id);
        }
    }
    None
}

/// The first slot of a file without a pending grant: one of its blocks, or else one that the
/// table holds beyond them.
#[tactic(auto, using(qfs_planning::specs::Walks::find_both), unfolding(qfs_model_meta::specs::PutRequests::first_ungranted))]
pub fn first_ungranted(blocks: &Blocks, file: FileId, count: u32) -> Option<SlotId>
    ensures { result ≡ first_ungranted file count blocks.now.slots }
{
    match ungranted_in_blocks(blocks, file, count) {
        Some(id) => Some(id),
        None => ungranted_in_table(blocks, file),
    }
}
