//! The requests of the name tree, and the listing of a directory.
ghost use Rattle.std.specs.Prelude.{◌≡◌, map, IfOk, IfErr};
ghost use Rattle.qfs_model_meta.specs.TreeRequests.{decide_list, decide_mkdir, decide_remove, decide_rename, decide_rmdir};
ghost use Rattle.qfs_plan_files.specs.Losing.{emptied};
ghost use Rattle.qfs_state.specs.Planning.{IsPlan, IsUnplanned};

use qfs_base::history::Entry;
use qfs_base::path::Path;
use qfs_base::reply::MetaReply;
use qfs_base::request::SlotId;
use qfs_blocks::RecordRow;
use qfs_names::copy_path;
use qfs_planning::{one_change, place_of, plan_of, refused};
use qfs_state::{Plan, Prepared, State, Unplanned};
use qfs_table::Run;
use std::alloc::{AllocError, Global};

/// Makes a directory. It is refused as the name tree refuses anything new at the path.
pub fn plan_mkdir(alloc: Global, state: &State, path: &Path) -> Result<Plan, Unplanned>
    ensures ok { IfOk result (IsPlan state.now.image (decide_mkdir path.now state.now.image)) }
    ensures err { IfErr result (IsUnplanned (decide_mkdir path.now state.now.image)) }
{
    let place = place_of(state)?;
    if let Some(refusal) = state.names().add_refusal(path) {
        return Err(refused(refusal, place));
    }
    let named = copy_path(alloc, path)?;
    let entry = Entry::Mkdir(named);
    let path = copy_path(alloc, path)?;
    let change = Prepared::AddDirectory { path, entry };
    let plan = one_change(alloc, change, MetaReply::Done { place })?;
    Ok(plan)
}

/// Takes an empty directory away. It is refused as the name tree refuses that.
pub fn plan_rmdir(alloc: Global, state: &State, path: &Path) -> Result<Plan, Unplanned>
    ensures ok { IfOk result (IsPlan state.now.image (decide_rmdir path.now state.now.image)) }
    ensures err { IfErr result (IsUnplanned (decide_rmdir path.now state.now.image)) }
{
    let place = place_of(state)?;
    if let Some(refusal) = state.names().rmdir_refusal(path) {
        return Err(refused(refusal, place));
    }
    let named = copy_path(alloc, path)?;
    let entry = Entry::Rmdir(named);
    let path = copy_path(alloc, path)?;
    let change = Prepared::TakeDirectory { path, entry };
    let plan = one_change(alloc, change, MetaReply::Done { place })?;
    Ok(plan)
}

/// The copies of these slots are condemned.
#[tactic(auto, unfolding(qfs_model_meta::specs::Slots::slot_id))]
fn emptied(alloc: Global, rows: Run<'_, RecordRow>) -> Result<Vec<Prepared>, AllocError>
    ensures { IfOk result (λ changes. changes.items ≡ map emptied rows.entry) }
{
    let mut changes = Vec::new(alloc);
    for row in rows {
        let row = row.row();
        let id = SlotId {
            block: row.block,
            slot: row.slot,
        };
        changes.push(Prepared::EmptySlot { id })?;
    }
    Ok(changes)
}

/// Takes a closed file away: its copies are condemned first, by index and slot. It is refused as
/// the name tree refuses the path.
pub fn plan_remove(alloc: Global, state: &State, path: &Path) -> Result<Plan, Unplanned>
    ensures ok { IfOk result (IsPlan state.now.image (decide_remove path.now state.now.image)) }
    ensures err { IfErr result (IsUnplanned (decide_remove path.now state.now.image)) }
{
    let place = place_of(state)?;
    if let Some(refusal) = state.names().look_refusal(path) {
        return Err(refused(refusal, place));
    }
    let file = state.names().file_at(path).file;
    let changes = emptied(alloc, state.blocks().rows_of(file))?;
    let named = copy_path(alloc, path)?;
    let entry = Entry::Removed(named);
    let path = copy_path(alloc, path)?;
    let last = Prepared::RemoveFile { path, file, entry };
    let plan = plan_of(changes, last, MetaReply::Done { place })?;
    Ok(plan)
}

/// Moves a file, or a directory with all below it. It is refused as the name tree refuses that.
pub fn plan_rename(alloc: Global, state: &State, from: &Path, to: &Path) -> Result<Plan, Unplanned>
    ensures ok { IfOk result (IsPlan state.now.image
        (decide_rename from.now to.now state.now.image)) }
    ensures err { IfErr result (IsUnplanned (decide_rename from.now to.now state.now.image)) }
{
    let place = place_of(state)?;
    if let Some(refusal) = state.names().rename_refusal(from, to) {
        return Err(refused(refusal, place));
    }
    let moved = state.names().moved(from, to)?;
    let old_name = copy_path(alloc, from)?;
    let new_name = copy_path(alloc, to)?;
    let entry = Entry::Renamed(old_name, new_name);
    let from = copy_path(alloc, from)?;
    let to = copy_path(alloc, to)?;
    let change = Prepared::MovePath {
        from,
        to,
        moved,
        entry,
    };
    let plan = one_change(alloc, change, MetaReply::Done { place })?;
    Ok(plan)
}

/// Tells the names right below a directory, which changes nothing. It is refused as the name tree
/// refuses the path.
pub fn plan_list(state: &State, path: &Path) -> Result<Plan, Unplanned>
    ensures ok { IfOk result (IsPlan state.now.image (decide_list path.now state.now.image)) }
    ensures err { IfErr result (IsUnplanned (decide_list path.now state.now.image)) }
{
    let place = place_of(state)?;
    if let Some(refusal) = state.names().directory_refusal(path) {
        return Err(refused(refusal, place));
    }
    let names = state.names().names_below(path)?;
    Err(Unplanned::Tells(MetaReply::Names { place, names }))
}
