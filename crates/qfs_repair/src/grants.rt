//! Which grants a recovery or a move goes on with.
#![tactic(auto, unfolding(qfs_model_actor::specs::Grants::is_grant_of, qfs_model_actor::specs::Grants::is_in_range))]

ghost use Rattle.std.specs.Prelude.{◌≡◌};
ghost use Rattle.qfs_model_actor.specs.Grants.{is_grant_of, is_in_range};

use qfs_base::numbers::Slot;
use qfs_base::reply::Granted;
use qfs_base::sizes::{MOST_ROWS, SLOTS};

/// Whether a grant is one of the block and slot that were asked for.
pub fn is_grant_of(index: u32, slot: Slot, grant: &Granted) -> bool
    ensures { result ≡ is_grant_of index slot grant.now }
{
    grant.block.index == index && grant.slot == slot
}

/// Whether a grant is one of nine slots, of no more rows than a chunk can have.
pub fn is_in_range(grant: &Granted) -> bool
    ensures { result ≡ is_in_range grant.now }
{
    grant.slot < SLOTS && grant.rows <= MOST_ROWS
}
