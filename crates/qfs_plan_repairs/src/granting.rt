//! What recoveries and moves share: a lease on the file, and a grant of one of its slots under it.
ghost use Rattle.std.specs.Prelude.{◌≡◌, ◌<◌, length, IfOk, IfErr, IfSome, None};
ghost use Rattle.qfs_base.specs.Layout.{rows_of};
ghost use Rattle.qfs_base.specs.Sizes.{SLOTS};
ghost use Rattle.qfs_model_meta.specs.Grammar.{IsServer};
ghost use Rattle.qfs_model_meta.specs.LeasedGrants.{closed_len, grant_chosen, grant_leased, grant_recovery};
ghost use Rattle.qfs_model_meta.specs.Leases.{lease_end};
ghost use Rattle.qfs_model_meta.specs.Lists.{new_grant};
ghost use Rattle.qfs_model_meta.specs.Placing.{barred_for_block, census, choose};
ghost use Rattle.qfs_model_meta.specs.Slots.{slot_at};
ghost use Rattle.qfs_model_meta.specs.TreeRows.{closed_file};
ghost use Rattle.qfs_state.specs.Planning.{IsPlan, IsUnplanned};

use crate::barred::barred_for_block;
use crate::sources::listed_others;
use qfs_base::chunk::BlockId;
use qfs_base::lists::Nine;
use qfs_base::numbers::{ActorId, FileId, ServerId};
use qfs_base::reply::{Granted, MetaReply};
use qfs_base::request::SlotId;
use qfs_lease::LeaseView;
use qfs_place::{choose, server_at};
use qfs_state::{Plan, Prepared, State, Unplanned};
use qfs_stripe::{Layout, LayoutCalls};
use std::alloc::{AllocError, Global};

/// The reading until which a lease lives that is given now: for good where the term is 0.
#[tactic(auto, unfolding(qfs_model_meta::specs::Leases::lease_end, qfs_model_meta::specs::Servers::reading_after))]
fn lease_end(term: u32, clock: u64) -> u64
    ensures { result ≡ lease_end term clock }
{
    if term == 0 {
        0
    } else {
        clock.saturating_add(term as u64)
    }
}

/// The rows of a block's chunks in a file of so many bytes, and none of a block behind its end.
fn rows_of(layout: &Layout, len: u32, index: u32) -> u32
    ensures { result ≡ rows_of layout.now.s layout.now.r len index }
{
    if index < layout.blocks_of(len) {
        layout.rows_of(len, index)
    } else {
        0
    }
}

/// The length of a closed file in bytes, and of what is none 0.
fn closed_len(state: &State, file: FileId) -> u32
    ensures { result ≡ closed_len (closed_file file state.now.image.tree) }
{
    match state.names().closed_file(file) {
        Some(known) => known.len,
        None => 0,
    }
}

/// What an actor is told of the grant of a slot of a closed file under the next lease.
#[tactic(auto, unfolding(qfs_model_meta::specs::Lists::new_grant))]
fn told_of(layout: &Layout, state: &State, id: SlotId, server: ServerId, sources: Nine) -> Granted
    ensures { result ≡ new_grant layout.now
        (closed_len (closed_file id.block.file state.now.image.tree)) id.block id.slot server
        state.now.image.next_lease sources state.now.image }
{
    let len = closed_len(state, id.block.file);
    Granted {
        block: id.block,
        slot: id.slot,
        version: state.blocks().slot_at(id.block, id.slot).next,
        server,
        life: server_at(state.servers().as_slice(), server).life,
        lease: state.leases().next(),
        sources,
        rows: rows_of(layout, len, id.block.index),
    }
}

/// Grants a slot of a closed file on a server, under a new lease on the file for a term, in ticks
/// (for good where it is 0). No memory is found where the server's load is full.
pub fn plan_leased(
    alloc: Global,
    layout: &Layout,
    term: u32,
    actor: ActorId,
    state: &State,
    id: SlotId,
    server: ServerId,
    sources: Nine,
) -> Result<Plan, AllocError>
    requires slot_number { id.slot < SLOTS }
    requires server_there { IsServer (length state.now.image.servers) server }
    requires free { (slot_at state.now.image.slots id.block id.slot).grant ≡ None }
    ensures { IfOk result (IsPlan state.now.image
        (grant_leased layout.now term actor id.block id.slot sources state.now.image server)) }
{
    let count = state.loads().on(server);
    if count == u32::MAX {
        return Err(AllocError);
    }
    let give = Prepared::GiveLease {
        actor,
        file: id.block.file,
        until: lease_end(term, state.clock()),
    };
    let lease = state.leases().next();
    let grant = Prepared::GrantSlot {
        id,
        server,
        actor,
        lease,
    };
    let changes = vec![in alloc; give, grant]?;
    let told = told_of(layout, state, id, server, sources);
    Ok(Plan {
        changes,
        reply: MetaReply::Granted(told),
    })
}

/// The server that gets a copy of a block: of those that are up, not leaving and have no other copy
/// of it the one with the lowest load, and among equals the one with the smallest number.
#[tactic(auto, using(qfs_place::specs::LoadLaws::length_census))]
fn chosen(state: &State, block: BlockId) -> Option<ServerId>
    ensures chosen { result ≡ choose (census state.now.image.servers state.now.image.slots)
        (barred_for_block state.now.image.servers state.now.image.slots block) }
    ensures number { IfSome result (IsServer (length state.now.image.servers)) }
{
    let _servers = state.servers();
    let barred = barred_for_block(state, block);
    choose(state.loads().census(), &barred)
}

/// The same on the server that is chosen: the one with the lowest load of those that are up, not
/// leaving and have no other copy of the block. NoServer where there is none.
pub fn plan_chosen(
    alloc: Global,
    layout: &Layout,
    term: u32,
    actor: ActorId,
    state: &State,
    id: SlotId,
    sources: Nine,
) -> Result<Plan, Unplanned>
    requires slot_number { id.slot < SLOTS }
    requires free { (slot_at state.now.image.slots id.block id.slot).grant ≡ None }
    ensures ok { IfOk result (IsPlan state.now.image
        (grant_chosen layout.now term actor id.block id.slot sources state.now.image)) }
    ensures err { IfErr result (IsUnplanned
        (grant_chosen layout.now term actor id.block id.slot sources state.now.image)) }
{
    match chosen(state, id.block) {
        None => Err(Unplanned::Tells(MetaReply::NoServer {
            block: id.block,
            slot: id.slot,
        })),
        Some(server) => {
            let plan = plan_leased(alloc, layout, term, actor, state, id, server, sources)?;
            Ok(plan)
        }
    }
}

/// Grants the recovery of a slot on the server that is chosen. It reads the listed copies of the
/// block's other slots.
pub fn plan_recovery(
    alloc: Global,
    layout: &Layout,
    term: u32,
    actor: ActorId,
    state: &State,
    id: SlotId,
) -> Result<Plan, Unplanned>
    requires slot_number { id.slot < SLOTS }
    requires free { (slot_at state.now.image.slots id.block id.slot).grant ≡ None }
    ensures ok { IfOk result (IsPlan state.now.image
        (grant_recovery layout.now term actor id.block id.slot state.now.image)) }
    ensures err { IfErr result (IsUnplanned
        (grant_recovery layout.now term actor id.block id.slot state.now.image)) }
{
    let sources = listed_others(alloc, state, id.block, id.slot)?;
    plan_chosen(alloc, layout, term, actor, state, id, sources)
}
