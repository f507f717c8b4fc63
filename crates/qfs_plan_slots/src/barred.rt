//! The server that a put of a slot is granted.
ghost use Rattle.std.specs.Prelude.{◌≡◌, ◌<◌, length, IfSome};
ghost use Rattle.qfs_model_meta.specs.Grammar.{IsServer};
ghost use Rattle.qfs_model_meta.specs.Placing.{barred_for_put};
ghost use Rattle.qfs_model_meta.specs.PutRequests.{chosen_for_put, failed_with};
ghost use Rattle.qfs_model_meta.specs.Slots.{slot_at};

use qfs_base::numbers::ServerId;
use qfs_base::request::SlotId;
use qfs_base::server_set::ServerSet;
use qfs_base::sizes::SLOTS;
use qfs_place::{bar_grant, choose, failed_with};
use qfs_state::State;

/// The servers that failed a put of a slot, that of its pending grant among them, and those with a
/// live grant of its block: one look-up for each of the block's nine slots.
fn barred_for_put(state: &State, id: SlotId) -> ServerSet
    ensures { result ≡ barred_for_put state.now.image.servers state.now.image.slots id.block
        (failed_with (slot_at state.now.image.slots id.block id.slot).failed
        (slot_at state.now.image.slots id.block id.slot).grant) }
{
    let servers = state.servers().as_slice();
    let blocks = state.blocks();
    let own = blocks.slot_at(id.block, id.slot);
    let mut barred = failed_with(&own);
    for slot in 0..SLOTS {
        let record = blocks.slot_at(id.block, slot);
        barred = bar_grant(servers, barred, &record);
    }
    barred
}

/// The server that a put of a slot is granted: of those that are up, not leaving and not barred the
/// one with the lowest load, and among equals the one with the smallest number.
#[tactic(auto, using(qfs_place::specs::LoadLaws::length_census))]
pub fn chosen_for_put(state: &State, id: SlotId) -> Option<ServerId>
    ensures chosen { result ≡ chosen_for_put id.block id.slot state.now.image.servers
        state.now.image.slots (slot_at state.now.image.slots id.block id.slot) }
    ensures number { IfSome result (IsServer (length state.now.image.servers)) }
{
    let _servers = state.servers();
    let _blocks = state.blocks();
    let barred = barred_for_put(state, id);
    choose(state.loads().census(), &barred)
}
