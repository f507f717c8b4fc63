//! The load of each server: how many live current copies and grants stand on it. The loads stand
//! beside the table of slots, and change with its rows.
ghost use Rattle.std.specs.Prelude.{◌≡◌, ◌≤◌, ◌++◌, take, drop, count_by, length, is_some, IfOk, IsTrue, OnOk, OnErr};
ghost use Rattle.std.specs.Option.{option_to_list};
ghost use Rattle.qfs_base.specs.Table.{IsRising, place};
ghost use Rattle.qfs_model_meta.specs.Slots.{is_on, count_on, slot_at, slot_cmp};
ghost use Rattle.qfs_base.specs.Sizes.{MOST_SERVERS};
ghost use Rattle.qfs_meta.specs.Loads.{loads_of};

use crate::rows::{Run, search};
use crate::slots::granted_copy;
use qfs_base::chunk::Copy as ChunkCopy;
use qfs_base::image::{RecordList, ServerView, SlotRow};
use qfs_base::numbers::{Life, ServerId};
use std::alloc::{AllocError, Global};

/// 1 for a copy that stands on a server in a life, and 0 for another or none.
pub fn copies_on(server: ServerId, life: Life, copy: Option<ChunkCopy>) -> usize
    ensures count { result ≡ count_by (is_on server life) (option_to_list copy) }
    ensures bound { result ≤ 1 }
{
    match copy {
        Some(copy) if copy.server == server && copy.life == life => 1,
        _ => 0,
    }
}

/// How many current copies and grants stand on a server in a life.
fn count_on(slots: &[SlotRow], server: ServerId, life: Life) -> usize
    ensures { result ≡ count_on server life slots.now }
{
    let mut count = 0;
    for row in slots {
        count += copies_on(server, life, row.state.current)
            + copies_on(server, life, granted_copy(row.state.grant));
    }
    count
}

/// Takes some rows of the table off the loads.
pub fn uncount(loads: &mut [usize], servers: &[ServerView], slots: &[SlotRow], run: Run)
    requires servers { length servers.now ≤ MOST_SERVERS }
    requires start { run.start ≤ run.end }
    requires end { run.end ≤ length slots.now }
    requires loads { loads.old ≡ loads_of servers.now slots.now }
    ensures { loads.new ≡ loads_of servers.now (take run.start slots.now ++ drop run.end slots.now) }
{
    let gone = &slots[run.start..run.end];
    for at in 0..servers.len() {
        loads[at] -= count_on(gone, at as ServerId + 1, servers[at].life);
    }
}

/// Adds some rows of the table to the loads, which count all the others.
pub fn count(loads: &mut [usize], servers: &[ServerView], slots: &[SlotRow], run: Run)
    requires servers { length servers.now ≤ MOST_SERVERS }
    requires start { run.start ≤ run.end }
    requires end { run.end ≤ length slots.now }
    requires loads { loads.old ≡ loads_of servers.now (take run.start slots.now ++ drop run.end slots.now) }
    ensures { loads.new ≡ loads_of servers.now slots.now }
{
    let come = &slots[run.start..run.end];
    for at in 0..servers.len() {
        loads[at] += count_on(come, at as ServerId + 1, servers[at].life);
    }
}

/// The load of each server, by a walk over the whole table.
pub fn loads_of(
    alloc: Global,
    servers: &[ServerView],
    slots: &[SlotRow],
) -> Result<Vec<usize>, AllocError>
    requires { length servers.now ≤ MOST_SERVERS }
    ensures { IfOk result (λ loads. loads.items ≡ loads_of servers.now slots.now) }
{
    let mut loads = vec![in alloc; 0; servers.len()]?;
    let all = Run {
        start: 0,
        end: slots.len(),
    };
    count(loads.as_mut_slice(), servers, slots, all);
    Ok(loads)
}

/// Puts a row in place of the one with its key, which has a pending grant.
pub fn replace_slot(
    servers: &[ServerView],
    slots: &mut RecordList,
    loads: &mut [usize],
    row: SlotRow,
)
    requires servers { length servers.now ≤ MOST_SERVERS }
    requires order { IsRising slot_cmp slots.old }
    requires loads { loads.old ≡ loads_of servers.now slots.old }
    requires pending { IsTrue (is_some (slot_at slots.old row.block row.slot).grant) }
    ensures slots { slots.new ≡ place slot_cmp row slots.old }
    ensures loads { loads.new ≡ loads_of servers.now slots.new }
{
    match search(slots.as_slice(), &row) {
        Ok(at) => {
            uncount(loads, servers, slots.as_slice(), Run::one(at));
            slots.set(at, row);
            count(loads, servers, slots.as_slice(), Run::one(at));
        }
        Err(_) => unreachable!("a slot with a pending grant has its row"),
    }
}

/// Puts a row at its place in the table of slots, where it replaces the one with its key, and in
/// the loads. On want of memory both stay.
pub fn place_slot(
    servers: &[ServerView],
    slots: &mut RecordList,
    loads: &mut [usize],
    row: SlotRow,
) -> Result<(), AllocError>
    requires servers { length servers.now ≤ MOST_SERVERS }
    requires order { IsRising slot_cmp slots.old }
    requires loads { loads.old ≡ loads_of servers.now slots.old }
    ensures ok { OnOk result (slots.new ≡ place slot_cmp row slots.old) }
    ensures err { OnErr result (slots.new ≡ slots.old) }
    ensures loads { loads.new ≡ loads_of servers.now slots.new }
{
    match search(slots.as_slice(), &row) {
        Ok(at) => {
            uncount(loads, servers, slots.as_slice(), Run::one(at));
            slots.set(at, row);
            count(loads, servers, slots.as_slice(), Run::one(at));
        }
        Err(at) => {
            slots.insert(at, row)?;
            count(loads, servers, slots.as_slice(), Run::one(at));
        }
    }
    Ok(())
}
