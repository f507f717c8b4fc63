//! How a chunk is made anew from six other slots of its block.
#![tactic(auto, unfolding(crate::specs::Rest::rest_of_recovery, crate::specs::Rest::report_of_recovery, qfs_window::specs::WindowReads::rest_of_step, qfs_machine::specs::Endings::report_of_ending))]

ghost use Rattle.std.specs.Prelude.{◌≡◌, ◌+◌, ◌*◌, ◌<◌, ◌≤◌, ◌++◌, ◌⊎◌, length, take, false, None, IfOk, OnOk};
ghost use Rattle.qfs_base.specs.Sizes.{MOST_ROWS, SLOTS, WINDOW_ROWS};
ghost use Rattle.qfs_machine.specs.Asking.{Asks};
ghost use Rattle.qfs_model_actor.specs.Pieces.{restored_slot};
ghost use Rattle.qfs_model_actor.specs.Read.{are_too_few};
ghost use Rattle.qfs_model_actor.specs.Repair.{store_granted};
ghost use Rattle.qfs_model_actor.specs.Work.{goes_on};
ghost use Rattle.qfs_recover.specs.Rest.{behind_group, course_of, rest_of_groups};
ghost use Rattle.qfs_recover.specs.Rest.{rest_of_recovery, rest_of_restoring};
ghost use Rattle.qfs_recover.specs.Rest.{HasChunkRoom, HoldsNext, IsErrand, IsRecoveryStage};
ghost use Rattle.qfs_recover.specs.Rest.{IsRestoring};
ghost use Rattle.qfs_recover.specs.Turns.{rest_of_window};
ghost use Rattle.qfs_repair.specs.Deliveries.{Course, IsAskedByRepair};
ghost use Rattle.qfs_repair.specs.RowGroups.{filled_before, group_window};
ghost use Rattle.qfs_window.specs.Parts.{pieces_of, AreBelow};
ghost use Rattle.qfs_window.specs.WindowReads.{pieces_in, HasRoom, IsSix, IsStepOf, IsWindowStep};

use crate::ending::RecoveryEnding;
use crate::stage::{Errand, Restoring, Stage, Starving};
use qfs_base::layout::{Layout, Window};
use qfs_base::listing::Listing;
use qfs_base::mask::Mask;
use qfs_base::numbers::Slot;
use qfs_base::reply::{Granted, NodeReply};
use qfs_base::request::NodeRequest;
use qfs_base::sizes::WINDOW_ROWS;
use qfs_machine::Ending;
use qfs_repair::{
    After, Chunk, Delivery, group_bytes, group_rows, group_start, make_chunk_room, stripe,
};
use qfs_window::{
    Sources, WindowRead, WindowStep, begin_window, fetch_request, make_room, restore_slot,
    step_after,
};
use std::alloc::{AllocError, Global};

/// The window of a group of rows.
fn window_of(grant: &Granted, group: u32) -> Window
    requires rows { grant.now.rows ≤ MOST_ROWS }
    requires more { group * WINDOW_ROWS < grant.now.rows }
    ensures window { result ≡ group_window grant.now.block.index grant.now.rows group }
    ensures rows { result.rows ≤ WINDOW_ROWS }
{
    Window {
        index: grant.block.index,
        first_row: group * WINDOW_ROWS,
        rows: group_rows(grant.rows, group),
    }
}

/// The stage of a command that comes to a group, of whose block enough slots can be read.
pub fn begin_group(
    layout: &Layout,
    errand: Errand,
    grant: Granted,
    chunk: Vec<u8>,
    group: u32,
    sources: Sources,
    nine: Vec<u8>,
) -> Stage
    requires errand { IsErrand errand }
    requires slot { grant.slot < SLOTS }
    requires rows { grant.rows ≤ MOST_ROWS }
    requires more { group * WINDOW_ROWS < grant.rows }
    requires enough { are_too_few sources ≡ false }
    requires room { (group ≡ 0) ⊎ (length chunk.items ≡ grant.rows * layout.now.s) }
    ensures rest { rest_of_recovery layout.now result
        ≡ rest_of_groups layout.now (course_of layout.now errand) grant group sources
        (filled_before layout.now.s group chunk.items) }
    ensures at { IsRecoveryStage layout.now result }
    ensures holds { HoldsNext result }
{
    let window = window_of(&grant, group);
    let read = begin_window(stripe(layout), window, sources, nine);
    let restoring = Restoring {
        grant,
        chunk,
        group,
        read,
    };
    Stage::Restoring(errand, restoring)
}

/// The request for the bytes of a slot, for which the memory is taken, as for its reply.
pub fn slot_request(
    alloc: Global,
    layout: &Layout,
    restoring: &mut Restoring,
) -> Result<NodeRequest, AllocError>
    requires { IsRestoring layout.now restoring.old }
    ensures request { IfOk result (λ request. (course : Course)
        → Asks (rest_of_restoring layout.now course restoring.old) request) }
    ensures askable { IfOk result IsAskedByRepair }
    ensures rest { (course : Course) → rest_of_restoring layout.now course restoring.new
        ≡ rest_of_restoring layout.now course restoring.old }
    ensures at { IsRestoring layout.now restoring.new }
    ensures chunk { OnOk result (HasChunkRoom layout.now restoring.new) }
    ensures room { OnOk result (HasRoom layout.now.s restoring.new.read) }
{
    take_room(alloc, layout, restoring)?;
    ask_slot(alloc, layout, restoring)
}

/// Takes room for the whole chunk and for what the slots of a window give, unless it is there.
fn take_room(alloc: Global, layout: &Layout, restoring: &mut Restoring) -> Result<(), AllocError>
    requires { IsRestoring layout.now restoring.old }
    ensures rest { (course : Course) → rest_of_restoring layout.now course restoring.new
        ≡ rest_of_restoring layout.now course restoring.old }
    ensures at { IsRestoring layout.now restoring.new }
    ensures chunk { OnOk result (HasChunkRoom layout.now restoring.new) }
    ensures room { OnOk result (HasRoom layout.now.s restoring.new.read) }
{
    take_chunk_room(alloc, layout, restoring)?;
    take_slot_room(alloc, layout, restoring)
}

/// Takes room for the whole chunk, unless it is there.
fn take_chunk_room(
    alloc: Global,
    layout: &Layout,
    restoring: &mut Restoring,
) -> Result<(), AllocError>
    requires { IsRestoring layout.now restoring.old }
    ensures rest { (course : Course) → rest_of_restoring layout.now course restoring.new
        ≡ rest_of_restoring layout.now course restoring.old }
    ensures at { IsRestoring layout.now restoring.new }
    ensures chunk { OnOk result (HasChunkRoom layout.now restoring.new) }
{
    make_chunk_room(alloc, layout, restoring.grant.rows, &mut restoring.chunk)
}

/// Takes room for what the slots of a window give, unless it is there.
fn take_slot_room(
    alloc: Global,
    layout: &Layout,
    restoring: &mut Restoring,
) -> Result<(), AllocError>
    requires { IsRestoring layout.now restoring.old }
    ensures rest { (course : Course) → rest_of_restoring layout.now course restoring.new
        ≡ rest_of_restoring layout.now course restoring.old }
    ensures at { IsRestoring layout.now restoring.new }
    ensures chunk { restoring.new.chunk ≡ restoring.old.chunk }
    ensures grant { restoring.new.grant ≡ restoring.old.grant }
    ensures room { OnOk result (HasRoom layout.now.s restoring.new.read) }
{
    make_room(alloc, stripe(layout), &mut restoring.read)
}

/// The request for the bytes of a slot.
fn ask_slot(
    alloc: Global,
    layout: &Layout,
    restoring: &Restoring,
) -> Result<NodeRequest, AllocError>
    requires { IsRestoring layout.now restoring.now }
    ensures request { IfOk result (λ request. (course : Course)
        → Asks (rest_of_restoring layout.now course restoring.now) request) }
    ensures askable { IfOk result IsAskedByRepair }
{
    let request = fetch_request(
        alloc,
        restoring.grant.block,
        stripe(layout),
        &restoring.read,
    )?;
    Ok(request)
}

/// Writes the bytes of a slot into their place, made anew from those of six slots at hand.
fn restore_bytes(all: &mut [u8], start: usize, nine: &[u8], size: usize, have: Mask, want: Slot)
    requires place { start + size ≤ length all.old }
    requires want { want < 9 }
    requires enough { 6 ≤ length have }
    requires below { AreBelow 9 have }
    requires nine { length nine.now ≡ 9 * size }
    ensures len { length all.new ≡ length all.old }
    ensures put { take (start + size) all.new
        ≡ take start all.old ++ restored_slot (pieces_of size nine.now have) want }
{
    restore_slot(nine, size, have, want, &mut all[start..start + size]);
}

/// Writes the bytes of a group into their place in the chunk, made anew from six slots.
fn restore_group(chunk: &mut Vec<u8>, start: usize, size: usize, read: &WindowRead, want: Slot)
    requires place { start + size ≤ length chunk.old.items }
    requires want { want < 9 }
    requires enough { 6 ≤ length read.now.have }
    requires below { AreBelow 9 read.now.have }
    requires nine { length read.now.nine.items ≡ 9 * size }
    ensures len { length chunk.new.items ≡ length chunk.old.items }
    ensures put { take (start + size) chunk.new.items ≡ take start chunk.old.items
        ++ restored_slot (pieces_of size read.now.nine.items read.now.have) want }
{
    restore_bytes(
        chunk.as_mut_slice(),
        start,
        read.nine.as_slice(),
        size,
        read.have,
        want,
    );
}

/// The stage of a command that has made the first groups of a chunk anew: at the next group, or at
/// the whole chunk.
fn next_group(
    layout: &Layout,
    errand: Errand,
    grant: Granted,
    chunk: Vec<u8>,
    group: u32,
    sources: Sources,
    nine: Vec<u8>,
) -> Stage
    requires errand { IsErrand errand }
    requires slot { grant.slot < SLOTS }
    requires rows { grant.rows ≤ MOST_ROWS }
    requires few { group ≤ MOST_ROWS }
    requires enough { are_too_few sources ≡ false }
    requires room { length chunk.items ≡ grant.rows * layout.now.s }
    ensures rest { rest_of_recovery layout.now result
        ≡ rest_of_groups layout.now (course_of layout.now errand) grant group sources
        (filled_before layout.now.s group chunk.items) }
    ensures at { IsRecoveryStage layout.now result }
    ensures holds { HoldsNext result }
{
    if group * WINDOW_ROWS < grant.rows {
        return begin_group(layout, errand, grant, chunk, group, sources, nine);
    }
    deliver(layout, errand, grant, chunk)
}

/// The stage of a command that has made a whole chunk anew.
fn deliver(layout: &Layout, errand: Errand, grant: Granted, chunk: Vec<u8>) -> Stage
    requires errand { IsErrand errand }
    requires slot { grant.slot < SLOTS }
    requires rows { grant.rows ≤ MOST_ROWS }
    requires room { length chunk.items ≡ grant.rows * layout.now.s }
    ensures rest { rest_of_recovery layout.now result
        ≡ store_granted ((course_of layout.now errand).done grant)
        ((course_of layout.now errand).failed grant) grant chunk.items }
    ensures at { IsRecoveryStage layout.now result }
    ensures holds { HoldsNext result }
{
    let _most = stripe(layout);
    let chunk = Chunk::new(Listing::from_vec(chunk));
    Stage::Delivering(errand, Delivery::Storing(grant, chunk))
}

/// The stage of a command that has read six slots of its window.
fn six_read(
    layout: &Layout,
    errand: Errand,
    grant: Granted,
    chunk: Vec<u8>,
    group: u32,
    read: WindowRead,
) -> Stage
    requires errand { IsErrand errand }
    requires slot { grant.slot < SLOTS }
    requires rows { grant.rows ≤ MOST_ROWS }
    requires more { group * WINDOW_ROWS < grant.rows }
    requires window { read.window ≡ group_window grant.block.index grant.rows group }
    requires six { IsSix layout.now.s read }
    requires room { length chunk.items ≡ grant.rows * layout.now.s }
    ensures rest { rest_of_recovery layout.now result
        ≡ behind_group layout.now (course_of layout.now errand) grant group chunk.items
        read.sources (pieces_in layout.now.s read) }
    ensures at { IsRecoveryStage layout.now result }
    ensures holds { HoldsNext result }
{
    let mut chunk = chunk;
    let start = group_start(layout, group) as usize;
    let size = group_bytes(layout, grant.rows, group);
    restore_group(&mut chunk, start, size, &read, grant.slot);
    let WindowRead { sources, nine, .. } = read;
    next_group(layout, errand, grant, chunk, group + 1, sources, nine)
}

/// The stage of a command that ends at once, as any may.
pub fn ended(ending: Ending) -> Stage
    ensures { result ≡ Stage.Ended (RecoveryEnding.Common ending) }
{
    Stage::Ended(RecoveryEnding::Common(ending))
}

/// The stage of a command that finds too few slots of a block.
pub fn starve(errand: Errand, grant: Granted, sources: Sources) -> Stage
    ensures { result ≡ Stage.Starving errand
        (record { grant = grant; sources = sources; causes = None }) }
{
    let starving = Starving {
        grant,
        sources,
        causes: None,
    };
    Stage::Starving(errand, starving)
}

/// The stage behind what came of a read.
fn after_window(
    layout: &Layout,
    errand: Errand,
    grant: Granted,
    chunk: Vec<u8>,
    group: u32,
    step: WindowStep,
) -> Stage
    requires errand { IsErrand errand }
    requires slot { grant.slot < SLOTS }
    requires rows { grant.rows ≤ MOST_ROWS }
    requires more { group * WINDOW_ROWS < grant.rows }
    requires step { IsWindowStep layout.now.s step }
    requires window { IsStepOf (group_window grant.block.index grant.rows group) step }
    requires room { length chunk.items ≡ grant.rows * layout.now.s }
    ensures rest { rest_of_recovery layout.now result
        ≡ rest_of_window layout.now (course_of layout.now errand) grant group chunk.items step }
    ensures at { IsRecoveryStage layout.now result }
    ensures holds { HoldsNext result }
{
    match step {
        WindowStep::Goes(read) => {
            let restoring = Restoring {
                grant,
                chunk,
                group,
                read,
            };
            Stage::Restoring(errand, restoring)
        }
        WindowStep::Six(read) => six_read(layout, errand, grant, chunk, group, read),
        WindowStep::TooFew(read) => starve(errand, grant, read.sources),
        WindowStep::GivesUp(ending) => {
            Stage::Delivering(errand, Delivery::Abandoning(grant, After::Ended(ending)))
        }
        WindowStep::Ended(ending) => ended(ending),
    }
}

/// The stage behind a node's reply to the request for the bytes of a slot. Takes no memory.
pub fn after_restoring(
    layout: &Layout,
    errand: Errand,
    restoring: Restoring,
    reply: &NodeReply,
) -> Stage
    requires errand { IsErrand errand }
    requires at { IsRestoring layout.now restoring }
    requires chunk { HasChunkRoom layout.now restoring }
    requires room { HasRoom layout.now.s restoring.read }
    ensures rest { rest_of_recovery layout.now result
        ≡ goes_on (rest_of_restoring layout.now (course_of layout.now errand) restoring) reply.now }
    ensures at { IsRecoveryStage layout.now result }
    ensures holds { HoldsNext result }
{
    let Restoring {
        grant,
        chunk,
        group,
        read,
    } = restoring;
    let step = step_after(stripe(layout), read, reply);
    after_window(layout, errand, grant, chunk, group, step)
}
