//! What actors are told of blocks: the copies of their slots that are listed.
ghost use Rattle.std.specs.Prelude.{◌≡◌, IfOk};
ghost use Rattle.qfs_model_meta.specs.Lists.{listed_blocks, listed_nine};

use qfs_base::chunk::BlockId;
use qfs_base::listing::Listing;
use qfs_base::lists::Nine;
use qfs_base::numbers::FileId;
use qfs_base::sizes::SLOTS;
use qfs_place::listed_copy;
use qfs_state::State;
use std::alloc::{AllocError, Global};

/// The listed copies of a block.
fn listed_nine(alloc: Global, state: &State, block: BlockId) -> Result<Nine, AllocError>
    ensures { IfOk result (λ nine. nine
        ≡ listed_nine state.now.image.servers state.now.image.slots block) }
{
    let mut nine = Listing::with_capacity(alloc, SLOTS as usize)?;
    for slot in 0..SLOTS {
        let current = state.blocks().slot_at(block, slot).current;
        nine.push(listed_copy(state.servers().as_slice(), current))?;
    }
    Ok(nine)
}

/// The listed copies of so many blocks of a file.
pub fn listed_blocks(
    alloc: Global,
    state: &State,
    file: FileId,
    count: u32,
) -> Result<Listing<Nine>, AllocError>
    ensures { IfOk result (λ blocks. blocks
        ≡ listed_blocks state.now.image.servers state.now.image.slots file count) }
{
    let mut blocks = Listing::with_capacity(alloc, count as usize)?;
    for index in 0..count {
        blocks.push(listed_nine(alloc, state, BlockId { file, index })?)?;
    }
    Ok(blocks)
}
