//! Searches over the rows of a table, which pass each row once.
ghost use Rattle.std.specs.Prelude.{◌≡◌, ◌≤◌, find, min};
ghost use Rattle.std.specs.Option.{option_map};
ghost use Rattle.qfs_base.specs.Sizes.{LAST_U32};
ghost use Rattle.qfs_model_meta.specs.Slots.{count_on, slot_id};
ghost use Rattle.qfs_blocks.specs.Entries.{condemned_of, entry_may_go};
ghost use Rattle.qfs_blocks.specs.Records.{has_current_on, one_on};

use crate::row::{EntryRow, RecordRow};
use qfs_base::chunk::Copy as ChunkCopy;
use qfs_base::image::{CondemnedEntry, Servers};
use qfs_base::numbers::{Life, ServerId};
use qfs_base::reply::Condemned;
use qfs_base::request::SlotId;
use qfs_lease::LeaseView;
use qfs_place::{granted_copy, is_listed};
use qfs_table::Run;

/// The slot of a row.
#[tactic(auto, unfolding(qfs_model_meta::specs::Slots::slot_id))]
pub fn id_of(row: &RecordRow) -> SlotId
    ensures { result ≡ slot_id row.now }
{
    let row = row.row();
    SlotId {
        block: row.block,
        slot: row.slot,
    }
}

/// Whether a row's current copy is on a server in a life.
fn has_current_on(row: &RecordRow, server: ServerId, life: Life) -> bool
    ensures { result ≡ has_current_on server life row.now }
{
    match row.state().current {
        Some(copy) => copy.server == server && copy.life == life,
        None => false,
    }
}

/// The first of these slots whose current copy is on a server in a life.
pub fn first_on(rows: Run<'_, RecordRow>, server: ServerId, life: Life) -> Option<SlotId>
    ensures { result ≡ option_map slot_id (find (has_current_on server life) rows.entry) }
{
    for row in rows {
        if has_current_on(row, server, life) {
            return Some(id_of(row));
        }
    }
    None
}

/// One where there is a copy and it is on a server in a life, or else nothing.
fn one_on(copy: Option<ChunkCopy>, server: ServerId, life: Life) -> u32
    ensures one { result ≡ one_on server life copy }
    ensures few { result ≤ 1 }
{
    match copy {
        Some(copy) if copy.server == server && copy.life == life => 1,
        _ => 0,
    }
}

/// How many current copies and grants of these slots are on a server in a life. More than the last
/// value of 32 bits count as that.
pub fn count_on(rows: Run<'_, RecordRow>, server: ServerId, life: Life) -> u32
    ensures { result ≡ min (count_on server life rows.entry) LAST_U32 }
{
    let mut count: u32 = 0;
    for row in rows {
        let state = row.state();
        let current = one_on(state.current, server, life);
        let granted = one_on(granted_copy(state.grant), server, life);
        count = count.saturating_add(current + granted);
    }
    count
}

/// Whether a condemned copy may be ordered deleted.
fn may_go<V: LeaseView>(entry: &CondemnedEntry, leases: &V, servers: &Servers) -> bool
    ensures { result ≡ entry_may_go servers.now (V.leases leases.now) entry.now }
{
    let condemned = entry.condemned;
    is_listed(servers.as_slice(), condemned.copy)
        && !leases.live_on(condemned.block.file, entry.below)
}

/// The first of these condemned copies that may be ordered deleted.
pub fn first_to_go<V: LeaseView>(
    rows: Run<'_, EntryRow>,
    leases: &V,
    servers: &Servers,
) -> Option<Condemned>
    ensures { result ≡ option_map condemned_of
        (find (entry_may_go servers.now (V.leases leases.now)) rows.entry) }
{
    for row in rows {
        let entry = row.entry();
        if may_go(&entry, leases, servers) {
            return Some(entry.condemned);
        }
    }
    None
}
