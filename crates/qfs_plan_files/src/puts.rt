//! The requests of a put but for its grants: a file is created, and it is closed or given up.
ghost use Rattle.std.specs.Prelude.{◌≡◌, map, IfOk, IfErr};
ghost use Rattle.qfs_model_meta.specs.PutRequests.{decide_abort, decide_close, decide_create};
ghost use Rattle.qfs_plan_files.specs.Losing.{given_up};
ghost use Rattle.qfs_state.specs.Planning.{IsPlan, IsUnplanned};

use crate::closing::first_ungranted;
use qfs_base::history::Entry;
use qfs_base::numbers::{ActorId, FileId};
use qfs_base::path::Path;
use qfs_base::reply::MetaReply;
use qfs_base::request::SlotId;
use qfs_blocks::RecordRow;
use qfs_names::copy_path;
use qfs_planning::{one_change, place_of, plan_of, refused};
use qfs_state::{Plan, Prepared, State, Unplanned};
use qfs_stripe::{Layout, LayoutCalls};
use qfs_table::Run;
use std::alloc::{AllocError, Global};

/// Makes a file of `len` bytes that its actor has yet to write. It is refused as the name tree
/// refuses anything new at the path.
pub fn plan_create(
    alloc: Global,
    state: &State,
    actor: ActorId,
    path: &Path,
    command: u16,
    len: u32,
) -> Result<Plan, Unplanned>
    ensures ok { IfOk result (IsPlan state.now.image
        (decide_create actor path.now command len state.now.image)) }
    ensures err { IfErr result (IsUnplanned
        (decide_create actor path.now command len state.now.image)) }
{
    let place = place_of(state)?;
    if let Some(refusal) = state.names().add_refusal(path) {
        return Err(refused(refusal, place));
    }
    let file = state.names().next_file();
    let named = copy_path(alloc, path)?;
    let entry = Entry::Created(file, named);
    let again = copy_path(alloc, path)?;
    let path = copy_path(alloc, path)?;
    let change = Prepared::AddFile {
        path,
        again,
        actor,
        command,
        len,
        entry,
    };
    let plan = one_change(alloc, change, MetaReply::Created { file, place })?;
    Ok(plan)
}

/// Closes a file that the actor hasn't closed yet (Gone where there is none), once all of its
/// slots are granted (Incomplete before that, with the first slot that isn't).
pub fn plan_close(
    alloc: Global,
    layout: &Layout,
    state: &State,
    actor: ActorId,
    file: FileId,
) -> Result<Plan, Unplanned>
    ensures ok { IfOk result (IsPlan state.now.image
        (decide_close layout.now actor file state.now.image)) }
    ensures err { IfErr result (IsUnplanned
        (decide_close layout.now actor file state.now.image)) }
{
    let Some(known) = state.names().unclosed_file(actor, file) else {
        return Err(Unplanned::Tells(MetaReply::Gone));
    };
    let count = layout.blocks_of(known.len);
    if let Some(id) = first_ungranted(state.blocks(), file, count) {
        return Err(Unplanned::Tells(MetaReply::Incomplete {
            index: id.block.index,
            slot: id.slot,
        }));
    }
    let place = place_of(state)?;
    let change = Prepared::CloseFile {
        file,
        actor,
        command: known.command,
    };
    let plan = one_change(alloc, change, MetaReply::Done { place })?;
    Ok(plan)
}

/// The grants of these slots are given up.
#[tactic(auto, unfolding(qfs_model_meta::specs::Slots::slot_id))]
fn given_up(alloc: Global, rows: Run<'_, RecordRow>) -> Result<Vec<Prepared>, AllocError>
    ensures { IfOk result (λ changes. changes.items ≡ map given_up rows.entry) }
{
    let mut changes = Vec::new(alloc);
    for row in rows {
        let row = row.row();
        let id = SlotId {
            block: row.block,
            slot: row.slot,
        };
        changes.push(Prepared::GiveUp { id })?;
    }
    Ok(changes)
}

/// Gives a file up that the actor hasn't closed yet (Gone where there is none): the grants of its
/// slots are condemned, by index and slot.
pub fn plan_abort(
    alloc: Global,
    state: &State,
    actor: ActorId,
    file: FileId,
) -> Result<Plan, Unplanned>
    ensures ok { IfOk result (IsPlan state.now.image (decide_abort actor file state.now.image)) }
    ensures err { IfErr result (IsUnplanned (decide_abort actor file state.now.image)) }
{
    let Some(_known) = state.names().unclosed_file(actor, file) else {
        return Err(Unplanned::Tells(MetaReply::Gone));
    };
    let place = place_of(state)?;
    let changes = given_up(alloc, state.blocks().rows_of(file))?;
    let plan = plan_of(
        changes,
        Prepared::AbortFile { file },
        MetaReply::Done { place },
    )?;
    Ok(plan)
}
