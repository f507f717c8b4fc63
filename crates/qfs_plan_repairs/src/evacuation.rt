//! The request that moves the next copy away from a server.
ghost use Rattle.std.specs.Prelude.{◌≡◌, ◌<◌, find, filter, IfOk, IfErr, None};
ghost use Rattle.qfs_base.specs.Sizes.{SLOTS};
ghost use Rattle.qfs_blocks.specs.Records.{is_after};
ghost use Rattle.qfs_model_meta.specs.LeasedGrants.{has_block, is_at_rest, is_live_on};
ghost use Rattle.qfs_model_meta.specs.MoveRequests.{decide_evacuate, evacuate_slot, is_to_move, next_to_move};
ghost use Rattle.qfs_model_meta.specs.Slots.{slot_at};
ghost use Rattle.qfs_model_meta.specs.TreeRows.{closed_file};
ghost use Rattle.qfs_state.specs.Planning.{IsPlan, IsUnplanned};

use crate::granting::plan_chosen;
use crate::sources::move_source;
use qfs_base::chunk::{BlockId, Copy};
use qfs_base::image::SlotRow;
use qfs_base::numbers::{ActorId, ServerId};
use qfs_base::reply::MetaReply;
use qfs_base::request::SlotId;
use qfs_place::is_live;
use qfs_state::{Plan, State, Unplanned};
use qfs_stripe::{Layout, LayoutCalls};
use std::alloc::Global;

/// Whether a block is one of a closed file.
fn has_block(layout: &Layout, state: &State, block: BlockId) -> bool
    ensures { result ≡ has_block layout.now block.index
        (closed_file block.file state.now.image.tree) }
{
    match state.names().closed_file(block.file) {
        Some(known) => block.index < layout.blocks_of(known.len),
        None => false,
    }
}

/// Whether a slot is one of a block of a closed file, without a pending grant.
#[tactic(auto, unfolding(qfs_model_meta::specs::LeasedGrants::is_at_rest))]
fn is_at_rest(layout: &Layout, state: &State, row: &SlotRow) -> bool
    ensures { result ≡ is_at_rest layout.now state.now.image.tree row.now }
{
    row.state.grant.is_none() && has_block(layout, state, row.block)
}

/// Whether a current copy is live on a server.
#[tactic(auto, unfolding(qfs_model_meta::specs::LeasedGrants::is_live_on))]
fn is_live_on(state: &State, server: ServerId, current: Option<Copy>) -> bool
    ensures { result ≡ is_live_on state.now.image.servers server current }
{
    let servers = state.servers().as_slice();
    match current {
        Some(copy) => copy.server == server && is_live(servers, copy),
        None => false,
    }
}

/// Whether a slot's copy is live on a server, and isn't being recovered or moved already. The file
/// is looked up only for copies on that server.
#[tactic(auto, unfolding(qfs_model_meta::specs::MoveRequests::is_to_move))]
fn is_to_move(layout: &Layout, state: &State, server: ServerId, row: &SlotRow) -> bool
    ensures { result ≡ is_to_move layout.now server state.now.image row.now }
{
    is_live_on(state, server, row.state.current) && is_at_rest(layout, state, row)
}

/// The first such slot behind another, or of all: each row is passed once.
fn first_to_move(
    layout: &Layout,
    state: &State,
    server: ServerId,
    after: Option<SlotId>,
) -> Option<SlotRow>
    ensures { result ≡ find (is_to_move layout.now server state.now.image)
        (filter (is_after after) state.now.image.slots) }
{
    for row in state.blocks().rows_behind(after) {
        let row = row.row();
        if is_to_move(layout, state, server, &row) {
            return Some(row);
        }
    }
    None
}

/// Moves the copy of a slot without a pending grant to the server that is chosen.
#[tactic(auto, unfolding(qfs_model_meta::specs::MoveRequests::evacuate_slot))]
fn plan_row(
    alloc: Global,
    layout: &Layout,
    term: u32,
    actor: ActorId,
    state: &State,
    row: SlotRow,
) -> Result<Plan, Unplanned>
    requires slot_number { row.slot < SLOTS }
    requires free { (slot_at state.now.image.slots row.block row.slot).grant ≡ None }
    ensures ok { IfOk result (IsPlan state.now.image
        (evacuate_slot layout.now term actor state.now.image row)) }
    ensures err { IfErr result (IsUnplanned
        (evacuate_slot layout.now term actor state.now.image row)) }
{
    let sources = move_source(alloc, row.slot, row.state.current)?;
    let id = SlotId {
        block: row.block,
        slot: row.slot,
    };
    plan_chosen(alloc, layout, term, actor, state, id, sources)
}

/// Grants the move of the next copy on a server, behind a slot or of all, to the server that is
/// chosen, under a lease for a term, in ticks (for good where it is 0). The copy is a live one of a
/// slot of a closed file without a pending grant. It is refused where no such copy is left
/// (Nothing), and where no server may get it (NoServer).
pub fn plan_evacuate(
    alloc: Global,
    layout: &Layout,
    term: u32,
    actor: ActorId,
    state: &State,
    server: ServerId,
    after: Option<SlotId>,
) -> Result<Plan, Unplanned>
    ensures ok { IfOk result (IsPlan state.now.image
        (decide_evacuate layout.now term actor server after state.now.image)) }
    ensures err { IfErr result (IsUnplanned
        (decide_evacuate layout.now term actor server after state.now.image)) }
{
    let _blocks = state.blocks();
    match first_to_move(layout, state, server, after) {
        None => Err(Unplanned::Tells(MetaReply::Nothing)),
        Some(row) => plan_row(alloc, layout, term, actor, state, row),
    }
}
