//! The servers that may not get a copy of a block.
ghost use Rattle.std.specs.Prelude.{◌≡◌};
ghost use Rattle.qfs_model_meta.specs.MoveRequests.{is_barred, may_get};
ghost use Rattle.qfs_model_meta.specs.Placing.{barred_for_block};

use qfs_base::chunk::BlockId;
use qfs_base::numbers::ServerId;
use qfs_base::server_set::ServerSet;
use qfs_base::sizes::SLOTS;
use qfs_place::{bar_copies, server_at, takes_chunks};
use qfs_state::State;

/// The servers with a live copy or grant of a block: one look-up for each of its nine slots.
pub fn barred_for_block(state: &State, block: BlockId) -> ServerSet
    ensures { result ≡ barred_for_block state.now.image.servers state.now.image.slots block }
{
    let servers = state.servers().as_slice();
    let blocks = state.blocks();
    let mut barred = ServerSet::none();
    for slot in 0..SLOTS {
        let record = blocks.slot_at(block, slot);
        barred = bar_copies(servers, barred, &record);
    }
    barred
}

/// Whether a server has a live copy or grant of a block.
#[tactic(auto, unfolding(qfs_model_meta::specs::MoveRequests::is_barred))]
pub fn is_barred(state: &State, block: BlockId, server: ServerId) -> bool
    ensures { result
        ≡ is_barred state.now.image.servers state.now.image.slots block server }
{
    barred_for_block(state, block).contains(server)
}

/// Whether a server may get a copy of a block: it is up, not leaving, and has no other.
#[tactic(auto, unfolding(qfs_model_meta::specs::MoveRequests::may_get))]
pub fn may_get(state: &State, block: BlockId, server: ServerId) -> bool
    ensures { result ≡ may_get state.now.image.servers state.now.image.slots block server }
{
    let view = server_at(state.servers().as_slice(), server);
    takes_chunks(&view) && !is_barred(state, block, server)
}
