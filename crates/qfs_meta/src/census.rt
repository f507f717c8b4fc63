//! The choice of a server for a new chunk: the one with the fewest live copies and grants.
ghost use Rattle.std.specs.Prelude.{◌≡◌, ◌≤◌, length, IfSome};
ghost use Rattle.qfs_base.specs.Table.{IsRising};
ghost use Rattle.qfs_model_meta.specs.Placing.{with_live_servers};
ghost use Rattle.qfs_model_meta.specs.Slots.{slot_at, slot_cmp};
ghost use Rattle.qfs_meta.specs.Kept.{AreGrantedOnServers, IsGrantedOnServer, IsGrantPossible, IsServerNumber};
ghost use Rattle.qfs_base.specs.Sizes.{MOST_SERVERS};
ghost use Rattle.qfs_meta.specs.Candidates.{IsCandidate, after_server, lighter_of};
ghost use Rattle.qfs_meta.specs.Granting.{granted_elsewhere, granted_beside, IsChoice};
ghost use Rattle.qfs_meta.specs.Loads.{loads_of};
ghost use Rattle.qfs_model_meta.specs.PutRequests.{failed_with, chosen_for_put};

use crate::loads::copies_on;
use crate::servers::is_live;
use crate::slots::{granted_copy, slots_of_block};
use qfs_base::chunk::Copy as ChunkCopy;
use qfs_base::image::{ServerView, SlotRecord, SlotRow};
use qfs_base::numbers::{ServerId, Slot};
use qfs_base::request::SlotId;
use qfs_base::server_set::ServerSet;

/// A server that may get a chunk, with its load.
#[derive(Clone, Copy)]
pub struct Candidate {
    pub server: ServerId,
    pub load: usize,
}

/// The servers so far, and that of a row's grant where this is a live one of another slot.
#[tactic(auto, unfolding(qfs_model_meta::specs::Placing::with_live_servers, qfs_model_meta::specs::Slots::granted_copy))]
fn barred_with(servers: &[ServerView], row: &SlotRow, slot: Slot, barred: ServerSet) -> ServerSet
    requires { IsGrantedOnServer row.now }
    ensures { result ≡ with_live_servers servers.now barred (granted_elsewhere slot row.now) }
{
    if row.slot == slot {
        return barred;
    }
    match row.state.grant {
        Some(grant) if is_live(servers, grant.copy) => {
            let mut wider = barred;
            wider.insert(grant.copy.server);
            wider
        }
        _ => barred,
    }
}

/// The servers that are barred for a put of a slot: those with a live grant of another slot of its
/// block, and those that failed a put of the slot.
fn barred_for_put(
    servers: &[ServerView],
    slots: &[SlotRow],
    id: SlotId,
    failed: ServerSet,
) -> ServerSet
    requires order { IsRising slot_cmp slots.now }
    requires grants { AreGrantedOnServers slots.now }
    ensures { result ≡ with_live_servers servers.now failed (granted_beside id slots.now) }
{
    let rows = slots_of_block(slots, id.block);
    let mut barred = failed;
    for row in rows {
        barred = barred_with(servers, row, id.slot, barred);
    }
    barred
}

/// The candidate with the lower load, and of two with the same the first.
fn lighter(best: Option<Candidate>, next: Candidate) -> Candidate
    requires best { IfSome best IsCandidate }
    requires next { IsCandidate next }
    ensures lighter { result ≡ lighter_of best next }
    ensures kept { IsCandidate result }
{
    match best {
        Some(best) if best.load <= next.load => best,
        _ => next,
    }
}

/// The best candidate once a server with a load was looked at too.
fn after_server(
    best: Option<Candidate>,
    number: ServerId,
    server: &ServerView,
    load: usize,
    barred: ServerSet,
) -> Option<Candidate>
    requires best { IfSome best IsCandidate }
    requires number { IsServerNumber number }
    ensures best { result ≡ after_server barred best number server.now load }
    ensures kept { IfSome result IsCandidate }
{
    if !server.up || server.leaving || barred.contains(number) {
        return best;
    }
    Some(lighter(
        best,
        Candidate {
            server: number,
            load,
        },
    ))
}

/// Of the servers that are up, not leaving and not barred, the one with the lowest load, and
/// among equals the one with the smallest number. The loads count one copy that is left out here.
fn choose(
    servers: &[ServerView],
    loads: &[usize],
    left_out: Option<ChunkCopy>,
    barred: ServerSet,
) -> Option<ServerId>
    requires servers { length servers.now ≤ MOST_SERVERS }
    requires loads { length loads.now ≡ length servers.now }
    ensures chosen { IsChoice servers.now loads.now left_out barred result }
    ensures number { IfSome result IsServerNumber }
{
    let mut best = None;
    for at in 0..servers.len() {
        let number = at as ServerId + 1;
        let server = &servers[at];
        let load = loads[at].saturating_sub(copies_on(number, server.life, left_out));
        best = after_server(best, number, server, load, barred);
    }
    best.map(|candidate| candidate.server)
}

/// The servers that failed a put of a slot, and that of its pending grant.
#[tactic(auto, unfolding(qfs_model_meta::specs::PutRequests::failed_with))]
pub fn failed_with(state: &SlotRecord) -> ServerSet
    requires { IsGrantPossible state.now }
    ensures { result ≡ failed_with state.now.failed state.now.grant }
{
    let mut failed = state.failed;
    if let Some(grant) = state.grant {
        failed.insert(grant.copy.server);
    }
    failed
}

/// The server that a put of a slot is granted, if one is open for it. A grant of the slot that is
/// pending counts as failed, and no more as one of the block's.
pub fn chosen_for_put(
    servers: &[ServerView],
    slots: &[SlotRow],
    loads: &[usize],
    id: SlotId,
    state: &SlotRecord,
) -> Option<ServerId>
    requires servers { length servers.now ≤ MOST_SERVERS }
    requires order { IsRising slot_cmp slots.now }
    requires grants { AreGrantedOnServers slots.now }
    requires loads { loads.now ≡ loads_of servers.now slots.now }
    requires state { state.now ≡ slot_at slots.now id.block id.slot }
    ensures chosen { result ≡ chosen_for_put id.block id.slot servers.now slots.now state.now }
    ensures number { IfSome result IsServerNumber }
{
    let barred = barred_for_put(servers, slots, id, failed_with(state));
    choose(servers, loads, granted_copy(state.grant), barred)
}
