//! Which slots of a file lack a grant, and what closing it changes.
ghost use Rattle.std.specs.Prelude.{◌≡◌, ◌≤◌, length, map, filter, find, OnOk, OnErr};
ghost use Rattle.qfs_base.specs.Table.{IsRising};
ghost use Rattle.qfs_model_meta.specs.Apply.{apply};
ghost use Rattle.qfs_base.specs.declared.change.Change.TheVariants.{CloseFile};
ghost use Rattle.qfs_model_meta.specs.PutRequests.{lacks_grant, block_slots, file_slots, first_ungranted};
ghost use Rattle.qfs_model_meta.specs.Slots.{slot_cmp, slot_id, slots_of, seal_file};
ghost use Rattle.qfs_meta.specs.Kept.{IsKept};
ghost use Rattle.qfs_base.specs.Sizes.{MOST_SERVERS};
ghost use Rattle.qfs_meta.specs.Loads.{loads_of};

use crate::loads::{count, uncount};
use crate::rows::{RowChange, change_rows, change_run, run_of};
use crate::slots::{granted_copy, slot_at, slots_of};
use qfs_base::chunk::BlockId;
use qfs_base::history::Entry;
use qfs_base::image::{MetaImage, RecordList, ServerView, SlotRow, TreeRow};
use qfs_base::numbers::{ActorId, FileId};
use qfs_base::request::SlotId;
use qfs_base::server_set::ServerSet;
use qfs_base::sizes::SLOTS;
use std::alloc::{AllocError, Global};

/// Whether a slot has no pending grant.
#[tactic(auto, unfolding(qfs_model_meta::specs::PutRequests::lacks_grant))]
fn lacks_grant(slots: &[SlotRow], id: SlotId) -> bool
    requires { IsRising slot_cmp slots.now }
    ensures { result ≡ lacks_grant slots.now id }
{
    slot_at(slots, id.block, id.slot).grant.is_none()
}

/// A row's slot.
#[tactic(auto, unfolding(qfs_model_meta::specs::Slots::slot_id))]
fn slot_id(row: &SlotRow) -> SlotId
    ensures { result ≡ slot_id row.now }
{
    SlotId {
        block: row.block,
        slot: row.slot,
    }
}

/// The first slot of a block without a pending grant.
#[tactic(auto, using(crate::proofs::ListedLaws::find_steps), unfolding(qfs_model_meta::specs::PutRequests::block_slots))]
fn ungranted_in_block(slots: &[SlotRow], block: BlockId) -> Option<SlotId>
    requires { IsRising slot_cmp slots.now }
    ensures { result ≡ find (lacks_grant slots.now) (block_slots block) }
{
    for slot in 0..SLOTS {
        let id = SlotId { block, slot };
        if lacks_grant(slots, id) {
            return Some(id);
        }
    }
    None
}

/// The first slot of so many blocks of a file without a pending grant.
#[tactic(auto, using(crate::proofs::ListedLaws::find_flat_steps), unfolding(qfs_model_meta::specs::PutRequests::file_slots))]
fn ungranted_in_blocks(slots: &[SlotRow], file: FileId, count: u32) -> Option<SlotId>
    requires { IsRising slot_cmp slots.now }
    ensures { result ≡ find (lacks_grant slots.now) (file_slots file count) }
{
    for index in 0..count {
        if let Some(id) = ungranted_in_block(slots, BlockId { file, index }) {
            return Some(id);
        }
    }
    None
}

/// The first slot of a file without a pending grant among those that the table holds.
fn ungranted_in_table(slots: &[SlotRow], file: FileId) -> Option<SlotId>
    requires { IsRising slot_cmp slots.now }
    ensures { result ≡ find (lacks_grant slots.now) (map slot_id (slots_of file slots.now)) }
{
    slots_of(slots, file)
        .iter()
        .map(|row| slot_id(row))
        .find(|id| lacks_grant(slots, *id))
}

/// The first slot of a file without a pending grant: one of its blocks, or else one that the
/// table holds beyond them.
#[tactic(auto, using(crate::proofs::ListedLaws::find_both), unfolding(qfs_model_meta::specs::PutRequests::first_ungranted))]
pub fn first_ungranted(slots: &[SlotRow], file: FileId, count: u32) -> Option<SlotId>
    requires { IsRising slot_cmp slots.now }
    ensures { result ≡ first_ungranted file count slots.now }
{
    match ungranted_in_blocks(slots, file, count) {
        Some(id) => Some(id),
        None => ungranted_in_table(slots, file),
    }
}

/// A slot's grant becomes current, and no server counts as failed any more.
#[derive(Drop)]
struct Seal;

impl RowChange<SlotRow> for Seal {
    ghost use Rattle.qfs_model_meta.specs.Slots.{change_state, sealed_slot};

    ghost changed = { λ seal row. change_state sealed_slot row };

    #[tactic(auto, unfolding(qfs_model_meta::specs::Slots::change_state, qfs_model_meta::specs::Slots::sealed_slot))]
    fn change(&self, row: &mut SlotRow) {
        row.state.current = granted_copy(row.state.grant);
        row.state.grant = None;
        row.state.failed = ServerSet::none();
    }
}

/// All grants of a file become current.
fn seal_file(
    alloc: Global,
    servers: &[ServerView],
    slots: &mut RecordList,
    loads: &mut [usize],
    file: FileId,
)
    requires servers { length servers.now ≤ MOST_SERVERS }
    requires order { IsRising slot_cmp slots.old }
    requires loads { loads.old ≡ loads_of servers.now slots.old }
    ensures slots { slots.new ≡ seal_file file slots.old }
    ensures loads { loads.new ≡ loads_of servers.now slots.new }
{
    let run = run_of(slots.as_slice(), &file);
    uncount(loads, servers, slots.as_slice(), run);
    change_run(alloc, slots, run, &Seal);
    count(loads, servers, slots.as_slice(), run);
}

/// A file's row is closed.
#[derive(Drop)]
struct CloseRow {
    file: FileId,
}

impl RowChange<TreeRow> for CloseRow {
    ghost use Rattle.qfs_base.specs.Table.{change_row};
    ghost use Rattle.qfs_model_meta.specs.TreeRows.{has_file, close_row};

    ghost changed = { λ close row. change_row close_row row (has_file close.file row) };

    #[tactic(auto, unfolding(qfs_model_meta::specs::TreeRows::has_file, qfs_model_meta::specs::TreeRows::close_row))]
    fn change(&self, row: &mut TreeRow) {
        if row.file == self.file {
            row.closed = true;
        }
    }
}

/// Closes a file that an actor's command wrote. On want of memory the state stays.
pub fn close_file(
    alloc: Global,
    image: &mut MetaImage,
    loads: &mut [usize],
    file: FileId,
    actor: ActorId,
    command: u16,
) -> Result<(), AllocError>
    requires kept { IsKept image.old }
    requires loads { loads.old ≡ loads_of image.old.servers image.old.slots }
    ensures ok { OnOk result (image.new ≡ apply image.old (CloseFile file actor command)) }
    ensures err { OnErr result (image.new ≡ image.old) }
    ensures loads { loads.new ≡ loads_of image.new.servers image.new.slots }
{
    image.history.push(Entry::Closed(file, actor, command))?;
    seal_file(
        alloc,
        image.servers.as_slice(),
        &mut image.slots,
        loads,
        file,
    );
    change_rows(alloc, &mut image.tree, &CloseRow { file });
    Ok(())
}
