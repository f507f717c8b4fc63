//! What the metaserver's slots hold, block by block.

ghost use Rattle.std.specs.Prelude.{◌≡◌, ◌<◌, [], IfOk, is_some, unwrap_or};
ghost use Rattle.std.specs.List.Sorted.{IsStrictlySortedBy};
ghost use Rattle.std.specs.Map.{keys_of};
ghost use Rattle.qfs_base.specs.Key.{block_cmp};
ghost use Rattle.qfs_base.specs.KeyMap.{value_at};
ghost use Rattle.qfs_report.specs.AuditOfImage.{is_live};
ghost use Rattle.qfs_report.specs.AuditTables.{held_with, with_if, table_of, nothing_held};

use qfs_base::chunk::{BlockId, Copy};
use qfs_base::image::SlotRow;
use qfs_base::key_map::KeyMap;
use qfs_base::mask::Mask;
use qfs_base::numbers::{Life, Slot};
use qfs_base::sizes::SLOTS;
use std::alloc::{AllocError, Global};

/// What the slots of a block hold.
#[derive(Clone, Copy)]
pub struct Held {
    /// The slots that have a row.
    pub known: Mask,
    /// Those with a current copy.
    pub current: Mask,
    /// Those whose current copy is live: its server is in the life in which it was made.
    pub live: Mask,
}

/// The blocks that have a slot, by file and index.
pub type Blocks = KeyMap<BlockId, Held>;

/// Whether there is a copy, and its server is in the life in which it was made.
#[tactic(auto, unfolding(crate::specs::AuditOfImage::is_live, crate::specs::AuditOfImage::is_life, qfs_model_world::specs::World::numbered))]
fn is_live(lives: &[Life], copy: Option<Copy>) -> bool
    ensures { result ≡ is_live lives.now copy }
{
    let Some(copy) = copy else {
        return false;
    };
    let Some(at) = copy.server.checked_sub(1) else {
        return false;
    };
    match lives.get(usize::from(at)) {
        Some(life) => *life == copy.life,
        None => false,
    }
}

/// The slots, and this one where the test says so.
#[tactic(auto, unfolding(crate::specs::AuditTables::with_if))]
fn with_if(test: bool, slot: Slot, slots: Mask) -> Mask
    requires { slot < 9 }
    ensures { result ≡ with_if test slot slots }
{
    if test { slots.with(slot) } else { slots }
}

/// What a block's slots hold after one row more. The first row of a slot decides.
#[tactic(auto, unfolding(crate::specs::AuditTables::held_with, crate::specs::AuditTables::held_unless))]
fn held_with(lives: &[Life], held: Held, row: &SlotRow) -> Held
    ensures { result ≡ held_with lives.now held row.now }
{
    if row.slot >= SLOTS || held.known.contains(row.slot) {
        return held;
    }
    let copy = row.state.current;
    Held {
        known: held.known.with(row.slot),
        current: with_if(copy.is_some(), row.slot, held.current),
        live: with_if(is_live(lives, copy), row.slot, held.live),
    }
}

/// A block of which nothing is known.
#[tactic(auto, unfolding(crate::specs::AuditTables::nothing_held))]
fn nothing_held() -> Held
    ensures { result ≡ nothing_held }
{
    Held {
        known: Mask::none(),
        current: Mask::none(),
        live: Mask::none(),
    }
}

/// What the slots of a block hold.
fn held_at(blocks: &Blocks, block: BlockId) -> Held
    ensures { result ≡ unwrap_or (value_at block_cmp blocks.now block) nothing_held }
{
    match blocks.get(&block) {
        Some(held) => *held,
        None => nothing_held(),
    }
}

/// What the slots of each block hold.
#[tactic(auto, unfolding(crate::specs::AuditTables::table_of, crate::specs::AuditTables::table_with))]
pub fn held_blocks(alloc: Global, lives: &[Life], slots: &[SlotRow]) -> Result<Blocks, AllocError>
    ensures table { IfOk result (λ blocks. blocks ≡ table_of lives.now [] slots.now) }
    ensures rising { IfOk result (λ blocks. IsStrictlySortedBy block_cmp (keys_of blocks)) }
{
    let mut blocks = KeyMap::new(alloc);
    for row in slots {
        let held = held_at(&blocks, row.block);
        blocks.insert(row.block, held_with(lives, held, row))?;
    }
    Ok(blocks)
}
