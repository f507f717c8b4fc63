//! The copies that a recovery or move reads.
ghost use Rattle.std.specs.Prelude.{◌≡◌, ◌<◌, IfOk};
ghost use Rattle.qfs_base.specs.Sizes.{SLOTS};
ghost use Rattle.qfs_model_meta.specs.LeasedGrants.{move_source};
ghost use Rattle.qfs_model_meta.specs.Lists.{listed_nine, listed_others, no_sources, one_source};

use qfs_base::chunk::{BlockId, Copy};
use qfs_base::listing::Listing;
use qfs_base::lists::Nine;
use qfs_base::numbers::Slot;
use qfs_base::sizes::SLOTS;
use qfs_place::listed_copy;
use qfs_state::State;
use std::alloc::{AllocError, Global};

/// No copy of any slot.
#[tactic(auto, unfolding(qfs_model_meta::specs::Lists::no_sources))]
fn no_sources(alloc: Global) -> Result<Nine, AllocError>
    ensures { IfOk result (λ nine. nine ≡ no_sources) }
{
    Listing::from_slice(alloc, &[None; SLOTS as usize])
}

/// The copy of one slot alone: what a move reads.
#[tactic(auto, unfolding(qfs_model_meta::specs::Lists::no_sources, qfs_model_meta::specs::Lists::one_source))]
pub fn one_source(alloc: Global, slot: Slot, copy: Copy) -> Result<Nine, AllocError>
    requires { slot < SLOTS }
    ensures { IfOk result (λ nine. nine ≡ one_source slot copy) }
{
    let mut nine = no_sources(alloc)?;
    nine.set(slot as usize, Some(copy));
    Ok(nine)
}

/// What a move of a slot's current copy reads: that copy alone.
#[tactic(auto, unfolding(qfs_model_meta::specs::LeasedGrants::move_source))]
pub fn move_source(alloc: Global, slot: Slot, current: Option<Copy>) -> Result<Nine, AllocError>
    requires { slot < SLOTS }
    ensures { IfOk result (λ nine. nine ≡ move_source slot current) }
{
    match current {
        Some(copy) => one_source(alloc, slot, copy),
        None => no_sources(alloc),
    }
}

/// The listed copies of a block.
fn listed_nine(alloc: Global, state: &State, block: BlockId) -> Result<Nine, AllocError>
    ensures { IfOk result (λ nine. nine
        ≡ listed_nine state.now.image.servers state.now.image.slots block) }
{
    let mut nine = Listing::with_capacity(alloc, SLOTS as usize)?;
    for slot in 0..SLOTS {
        let current = state.blocks().slot_at(block, slot).current;
        nine.push(listed_copy(state.servers().as_slice(), current))?;
    }
    Ok(nine)
}

/// The listed copies of all slots of a block but one: what a recovery of that slot reads.
#[tactic(auto, unfolding(qfs_model_meta::specs::Lists::listed_nine, qfs_model_meta::specs::Lists::listed_others))]
pub fn listed_others(
    alloc: Global,
    state: &State,
    block: BlockId,
    slot: Slot,
) -> Result<Nine, AllocError>
    requires { slot < SLOTS }
    ensures { IfOk result (λ nine. nine
        ≡ listed_others state.now.image.servers state.now.image.slots block slot) }
{
    let mut nine = listed_nine(alloc, state, block)?;
    nine.set(slot as usize, None);
    Ok(nine)
}
