//! What actors are told of blocks: the copies of their slots that are listed.
ghost use Rattle.std.specs.Prelude.{◌≡◌, IfOk};
ghost use Rattle.qfs_base.specs.Table.{IsRising};
ghost use Rattle.qfs_model_meta.specs.Lists.{no_sources, listed_nine, listed_blocks};
ghost use Rattle.qfs_model_meta.specs.Slots.{slot_cmp};

use crate::servers::listed_copy;
use crate::slots::slot_at;
use qfs_base::chunk::BlockId;
use qfs_base::image::{ServerView, SlotRow};
use qfs_base::listing::Listing;
use qfs_base::lists::Nine;
use qfs_base::numbers::FileId;
use qfs_base::sizes::SLOTS;
use std::alloc::{AllocError, Global};

/// No copy of any slot.
#[tactic(auto, unfolding(qfs_model_meta::specs::Lists::no_sources))]
pub fn no_sources(alloc: Global) -> Result<Nine, AllocError>
    ensures { IfOk result (λ nine. nine ≡ no_sources) }
{
    Listing::from_slice(alloc, &[None; SLOTS as usize])
}

/// The listed copies of a block.
fn listed_nine(
    alloc: Global,
    servers: &[ServerView],
    slots: &[SlotRow],
    block: BlockId,
) -> Result<Nine, AllocError>
    requires { IsRising slot_cmp slots.now }
    ensures { IfOk result (λ nine. nine ≡ listed_nine servers.now slots.now block) }
{
    let mut nine = Listing::with_capacity(alloc, SLOTS as usize)?;
    for slot in 0..SLOTS {
        let current = slot_at(slots, block, slot).current;
        nine.push(listed_copy(servers, current))?;
    }
    Ok(nine)
}

/// The listed copies of so many blocks of a file.
pub fn listed_blocks(
    alloc: Global,
    servers: &[ServerView],
    slots: &[SlotRow],
    file: FileId,
    count: u32,
) -> Result<Listing<Nine>, AllocError>
    requires { IsRising slot_cmp slots.now }
    ensures { IfOk result (λ blocks. blocks ≡ listed_blocks servers.now slots.now file count) }
{
    let mut blocks = Listing::with_capacity(alloc, count as usize)?;
    for index in 0..count {
        blocks.push(listed_nine(alloc, servers, slots, BlockId { file, index })?)?;
    }
    Ok(blocks)
}
