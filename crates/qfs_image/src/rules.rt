//! The rules of an image: its lists keep their orders and fit together, as those of a metaserver do.
//! Rows are compared with their neighbours, and looked up by number in lists of their files, so that
//! the time grows with the rows.
ghost use Rattle.std.specs.Prelude.{◌≡◌, ◌&&◌, ◌==◌, [], nat_lt, IfOk, length};
ghost use Rattle.std.specs.List.{list_all};
ghost use Rattle.qfs_model_disks.specs.Tests.{has_maker, has_servers, if_any, starts_from_one};
ghost use Rattle.qfs_image.specs.Files.{begin_leases, with_files};
ghost use Rattle.qfs_image.specs.Rules.{begins_at_top, bears_condemned, bears_condemned_row};
ghost use Rattle.qfs_image.specs.Rules.{bears_leases, bears_slot, bears_slots, bears_tree};
ghost use Rattle.qfs_image.specs.Rules.{bears_tree_row, condemned_before, follow, is_current_of};
ghost use Rattle.qfs_image.specs.Rules.{is_grant_below, keeps_alone, keeps_rules, on_servers};
ghost use Rattle.qfs_image.specs.Rules.{slot_before};

use crate::files::{Blocking, Files, blocking_of, files_of};
use crate::order::are_in_order;
use qfs_base::chunk::Copy;
use qfs_base::image::{CondemnedRow, Grant, Lease, MetaImage, SlotRow, TreeRow};
use qfs_base::numbers::{FileId, LeaseId};
use qfs_base::server_set::ServerSet;
use qfs_base::sizes::{MOST_FILE_BYTES, MOST_SERVERS};
use std::alloc::{AllocError, Global};

/// Whether a value that was read keeps the rules of an image. What each value that is read keeps
/// isn't tested again.
#[tactic(auto, unfolding(crate::specs::Rules::keeps_rules))]
pub(crate) fn keeps_rules(alloc: Global, image: &MetaImage) -> Result<bool, AllocError>
    ensures { IfOk result (λ kept. kept ≡ keeps_rules image.now) }
{
    if !keeps_alone(image) {
        return Ok(false);
    }
    if !has_slots(alloc, image)? {
        return Ok(false);
    }
    has_condemned(alloc, image)
}

/// Whether the rules hold that are tested without memory.
#[tactic(auto, unfolding(crate::specs::Rules::keeps_alone))]
fn keeps_alone(image: &MetaImage) -> bool
    ensures { result ≡ keeps_alone image.now }
{
    has_counters(image)
        && has_tree(image.next_file, image.tree.as_slice())
        && has_leases(image.next_lease, image.leases.as_slice())
        && are_in_order(image.dropped.as_slice())
}

/// Whether there are 1 to 64 servers, and the next numbers are from 1 on.
#[tactic(auto, unfolding(qfs_model_disks::specs::Tests::has_servers, qfs_model_disks::specs::Tests::starts_from_one))]
fn has_counters(image: &MetaImage) -> bool
    ensures { result ≡ (has_servers image.now && starts_from_one image.now) }
{
    let servers = image.servers.len();
    1 <= servers
        && servers <= usize::from(MOST_SERVERS)
        && 1 <= image.next_file
        && 1 <= image.next_lease
        && 1 <= image.next_condemned
}

/// Whether the rows of a name tree are in order, each in a directory of the tree.
#[tactic(auto, unfolding(crate::specs::Rules::bears_tree))]
fn has_tree(next_file: FileId, tree: &[TreeRow]) -> bool
    ensures { result ≡ bears_tree next_file tree.now }
{
    begins_at_top(tree) && are_in_order(tree) && are_tree_rows(next_file, tree)
}

/// Whether the first row lies in the root.
#[tactic(auto, unfolding(crate::specs::Rules::begins_at_top))]
fn begins_at_top(tree: &[TreeRow]) -> bool
    ensures { result ≡ begins_at_top tree.now }
{
    match tree {
        [] => true,
        [row, ..] => row.path.names.len() <= 1,
    }
}

fn are_tree_rows(next_file: FileId, tree: &[TreeRow]) -> bool
    ensures { result ≡ list_all (bears_tree_row next_file) tree.now }
{
    for row in tree {
        if !is_tree_row(next_file, row) {
            return false;
        }
    }
    true
}

/// Whether a row is not the root, and its numbers are those of a directory or of a file.
#[tactic(auto, unfolding(crate::specs::Rules::bears_tree_row))]
fn is_tree_row(next_file: FileId, row: &TreeRow) -> bool
    ensures { result ≡ bears_tree_row next_file row.now }
{
    0 < row.path.names.len() && row.len <= MOST_FILE_BYTES && row.file < next_file && has_maker(row)
}

/// Whether a directory was made by no command, and a file by an actor.
#[tactic(auto, unfolding(qfs_model_disks::specs::Tests::has_maker, qfs_model_disks::specs::Tests::is_plain))]
fn has_maker(row: &TreeRow) -> bool
    ensures { result ≡ has_maker (row.now.file == 0) row.now }
{
    if row.file == 0 {
        !row.closed && row.actor == 0 && row.command == 0 && row.len == 0
    } else {
        1 <= row.actor
    }
}

/// Whether no two files have one number, and the slots are those of files.
#[tactic(auto, unfolding(crate::specs::Rules::bears_slots))]
fn has_slots(alloc: Global, image: &MetaImage) -> Result<bool, AllocError>
    ensures { IfOk result (λ has. has ≡ bears_slots (length image.now.servers) image.now.next_lease
        (with_files [] image.now.tree) image.now.slots) }
{
    let Some(files) = files_of(alloc, image.tree.as_slice())? else {
        return Ok(false);
    };
    let slots = image.slots.as_slice();
    Ok(are_slots(image.servers.len(), image.next_lease, &files, slots))
}

fn are_slots(servers: usize, next_lease: LeaseId, files: &Files, slots: &[SlotRow]) -> bool
    ensures { result ≡ (follow slot_before slots.now
        && list_all (bears_slot servers next_lease files.now) slots.now) }
{
    are_in_order(slots) && are_slot_rows(servers, next_lease, files, slots)
}

fn are_slot_rows(servers: usize, next_lease: LeaseId, files: &Files, slots: &[SlotRow]) -> bool
    ensures { result ≡ list_all (bears_slot servers next_lease files.now) slots.now }
{
    for row in slots {
        if !is_slot(servers, next_lease, files, row) {
            return false;
        }
    }
    true
}

/// Whether a slot is one of a file, on servers that are there, and has a current copy only where the
/// file is closed.
#[tactic(auto, unfolding(crate::specs::Rules::bears_slot, crate::specs::Files::is_closed_in))]
fn is_slot(servers: usize, next_lease: LeaseId, files: &Files, row: &SlotRow) -> bool
    ensures { result ≡ bears_slot servers next_lease files.now row.now }
{
    let Some(closed) = files.get(&row.block.file) else {
        return false;
    };
    is_current(servers, *closed, &row.state.current)
        && is_grant(servers, next_lease, &row.state.grant)
        && are_servers(servers, row.state.failed)
}

#[tactic(auto, unfolding(qfs_model_disks::specs::Tests::if_any, crate::specs::Rules::is_current_of))]
fn is_current(servers: usize, closed: bool, current: &Option<Copy>) -> bool
    ensures { result ≡ if_any (is_current_of servers closed) current.now }
{
    match current {
        None => true,
        Some(copy) => closed && usize::from(copy.server) <= servers,
    }
}

#[tactic(auto, unfolding(qfs_model_disks::specs::Tests::if_any, crate::specs::Rules::is_grant_below))]
fn is_grant(servers: usize, next_lease: LeaseId, grant: &Option<Grant>) -> bool
    ensures { result ≡ if_any (is_grant_below servers next_lease) grant.now }
{
    match grant {
        None => true,
        Some(grant) => { usize::from(grant.copy.server) <= servers && grant.lease < next_lease }
    }
}

fn are_servers(servers: usize, failed: ServerSet) -> bool
    ensures { result ≡ on_servers servers failed }
{
    for server in failed.iter() {
        if servers < usize::from(server) {
            return false;
        }
    }
    true
}

/// Whether leases are in order, with numbers below the next one.
#[tactic(auto, unfolding(crate::specs::Rules::bears_leases))]
fn has_leases(next_lease: LeaseId, leases: &[Lease]) -> bool
    ensures { result ≡ bears_leases next_lease leases.now }
{
    are_in_order(leases) && are_below(next_lease, leases)
}

fn are_below(next_lease: LeaseId, leases: &[Lease]) -> bool
    ensures { result ≡ list_all (λ lease. nat_lt lease.lease next_lease) leases.now }
{
    for lease in leases {
        if next_lease <= lease.lease {
            return false;
        }
    }
    true
}

/// Whether condemned copies are in order, and each is blocked by the first of the leases on its file.
#[tactic(auto, unfolding(crate::specs::Rules::bears_condemned))]
fn has_condemned(alloc: Global, image: &MetaImage) -> Result<bool, AllocError>
    ensures { IfOk result (λ has. has ≡ bears_condemned (length image.now.servers)
        image.now.next_condemned image.now.leases image.now.condemned) }
{
    let blocking = blocking_of(alloc, image.leases.as_slice())?;
    let rows = image.condemned.as_slice();
    Ok(are_condemned(image.servers.len(), image.next_condemned, &blocking, rows))
}

fn are_condemned(servers: usize, next: u64, blocking: &Blocking, rows: &[CondemnedRow]) -> bool
    ensures { result ≡ (follow condemned_before rows.now
        && list_all (bears_condemned_row servers next blocking.now) rows.now) }
{
    are_in_order(rows) && are_condemned_rows(servers, next, blocking, rows)
}

fn are_condemned_rows(servers: usize, next: u64, blocking: &Blocking, rows: &[CondemnedRow]) -> bool
    ensures { result ≡ list_all (bears_condemned_row servers next blocking.now) rows.now }
{
    for row in rows {
        if !is_condemned(servers, next, blocking, row) {
            return false;
        }
    }
    true
}

#[tactic(auto, unfolding(crate::specs::Rules::bears_condemned_row))]
fn is_condemned(servers: usize, next: u64, blocking: &Blocking, row: &CondemnedRow) -> bool
    ensures { result ≡ bears_condemned_row servers next blocking.now row.now }
{
    let condemned = &row.condemned;
    condemned.number < next
        && usize::from(condemned.copy.server) <= servers
        && begin_leases(blocking, condemned.block.file, row.blockers.as_slice())
}

/// Whether these are the first of the leases on a file.
#[tactic(auto, unfolding(crate::specs::Files::begin_leases, crate::specs::Files::or_none))]
fn begin_leases(blocking: &Blocking, file: FileId, blockers: &[LeaseId]) -> bool
    ensures { result ≡ begin_leases blocking.now file blockers.now }
{
    match blocking.get(&file) {
        None => blockers.is_empty(),
        Some(leases) => leases.as_slice().starts_with(blockers),
    }
}
