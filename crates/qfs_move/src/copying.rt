//! How a copy is read whole from its server.
#![tactic(auto, unfolding(crate::specs::Rest::rest_of_move, crate::specs::Rest::report_of_move, crate::specs::Turns::rest_if_filled, qfs_model_actor::specs::Ask::after_fetch, qfs_machine::specs::Endings::report_of_ending))]

ghost use Rattle.std.specs.Prelude.{◌≡◌, ◌+◌, ◌*◌, ◌<◌, ◌≤◌, ◌++◌, length, take, IfOk, OnOk};
ghost use Rattle.qfs_base.specs.Sizes.{WINDOW_ROWS};
ghost use Rattle.qfs_machine.specs.Asking.{Asks};
ghost use Rattle.qfs_model_actor.specs.Work.{goes_on};
ghost use Rattle.qfs_move.specs.Rest.{course_of, rest_of_copying, rest_of_move};
ghost use Rattle.qfs_move.specs.Rest.{HasRoom, HoldsNext, IsCopying, IsErrand, IsMoveStage};
ghost use Rattle.qfs_move.specs.Turns.{after_group, group_bytes};
ghost use Rattle.qfs_move.specs.Turns.{rest_if_filled, rest_of_failed, rest_with_group};
ghost use Rattle.qfs_repair.specs.Deliveries.{Course, IsAskedByRepair};

use crate::ending::MoveEnding;
use crate::stage::{Copying, Errand, Stage};
use qfs_base::chunk::ChunkKey;
use qfs_base::listing::Listing;
use qfs_base::lists::Cause;
use qfs_base::reply::{ChunkAnswer, ChunkReply, NodeReply};
use qfs_base::request::{ChunkRequest, NodeRequest};
use qfs_base::sizes::WINDOW_ROWS;
use qfs_machine::Ending;
use qfs_repair::{
    After, Chunk, Delivery, Failure, group_bytes, group_start, make_chunk_room, zeros,
};
use qfs_stripe::Layout;
use std::alloc::{AllocError, Global};

/// How many bytes the present group has.
fn size_of_group(layout: &Layout, copying: &Copying) -> usize
    requires { IsCopying layout.now copying.now }
    ensures { result ≡ group_bytes layout.now copying.now }
{
    group_bytes(layout, copying.grant.rows, copying.group)
}

/// Takes room for the whole chunk, unless it is there.
pub fn make_room(alloc: Global, layout: &Layout, copying: &mut Copying) -> Result<(), AllocError>
    requires { IsCopying layout.now copying.old }
    ensures rest { (course : Course) → rest_of_copying layout.now course copying.new
        ≡ rest_of_copying layout.now course copying.old }
    ensures at { IsCopying layout.now copying.new }
    ensures room { OnOk result (HasRoom layout.now copying.new) }
    ensures source { copying.new.source ≡ copying.old.source }
{
    make_chunk_room(alloc, layout, copying.grant.rows, &mut copying.chunk)
}

/// The request for the bytes of a group.
pub fn fetch_request(
    alloc: Global,
    layout: &Layout,
    copying: &Copying,
) -> Result<NodeRequest, AllocError>
    requires { IsCopying layout.now copying.now }
    ensures request { IfOk result (λ request. (course : Course)
        → Asks (rest_of_copying layout.now course copying.now) request) }
    ensures askable { IfOk result IsAskedByRepair }
{
    let room = zeros(alloc, size_of_group(layout, copying))?;
    let grant = &copying.grant;
    let key = ChunkKey {
        block: grant.block,
        slot: grant.slot,
        version: copying.source.version,
    };
    let fetch = ChunkRequest::Fetch {
        key,
        life: copying.source.life,
        from: group_start(layout, copying.group),
        room: Listing::from_vec(room),
    };
    Ok(NodeRequest::Chunk(copying.source.server, fetch))
}

/// The stage of a command that ends at once, as any may.
pub fn ended(ending: Ending) -> Stage
    ensures { result ≡ Stage.Ended (MoveEnding.Common ending) }
{
    Stage::Ended(MoveEnding::Common(ending))
}

/// The stage behind a copy whose source failed: its grant is given up.
fn failed(layout: &Layout, errand: Errand, copying: Copying, cause: Cause) -> Stage
    requires { IsErrand errand }
    ensures rest { rest_of_move layout.now result
        ≡ rest_of_failed (course_of layout.now errand copying.source) copying cause }
    ensures at { IsMoveStage layout.now result }
    ensures holds { HoldsNext result }
{
    let _ = layout;
    let source = copying.source;
    let server = source.server;
    let after = After::Failed(Failure::Source { server, cause });
    Stage::Delivering(errand, source, Delivery::Abandoning(copying.grant, after))
}

/// Writes bytes into their place.
fn put_bytes(all: &mut [u8], start: usize, bytes: &[u8])
    requires { start + length bytes.now ≤ length all.old }
    ensures len { length all.new ≡ length all.old }
    ensures put { take (start + length bytes.now) all.new ≡ take start all.old ++ bytes.now }
{
    all[start..start + bytes.len()].copy_from_slice(bytes);
}

/// Writes the bytes of a group into their place in the chunk.
fn put_group(chunk: &mut Vec<u8>, start: usize, bytes: &[u8])
    requires { start + length bytes.now ≤ length chunk.old.items }
    ensures len { length chunk.new.items ≡ length chunk.old.items }
    ensures put { take (start + length bytes.now) chunk.new.items
        ≡ take start chunk.old.items ++ bytes.now }
{
    put_bytes(chunk.as_mut_slice(), start, bytes);
}

/// The stage behind a group that was read: at the next group, or at the whole chunk.
fn given(layout: &Layout, errand: Errand, copying: Copying, bytes: &[u8]) -> Stage
    requires errand { IsErrand errand }
    requires at { IsCopying layout.now copying }
    requires room { HasRoom layout.now copying }
    requires bytes { length bytes.now ≡ group_bytes layout.now copying }
    ensures rest { rest_of_move layout.now result
        ≡ rest_with_group layout.now (course_of layout.now errand copying.source) copying bytes.now }
    ensures at { IsMoveStage layout.now result }
    ensures holds { HoldsNext result }
{
    let mut copying = copying;
    let start = group_start(layout, copying.group) as usize;
    put_group(&mut copying.chunk, start, bytes);
    copying.group += 1;
    if copying.group * WINDOW_ROWS < copying.grant.rows {
        return Stage::Copying(errand, copying);
    }
    let Copying {
        grant,
        source,
        chunk,
        ..
    } = copying;
    let chunk = Chunk::new(Listing::from_vec(chunk));
    Stage::Delivering(errand, source, Delivery::Storing(grant, chunk))
}

/// The stage behind a group that came back, in a room that may not be as long as it was asked for.
fn taken(layout: &Layout, errand: Errand, copying: Copying, room: &[u8]) -> Stage
    requires errand { IsErrand errand }
    requires at { IsCopying layout.now copying }
    requires room { HasRoom layout.now copying }
    ensures rest { rest_of_move layout.now result
        ≡ rest_if_filled layout.now (course_of layout.now errand copying.source) copying room.now }
    ensures at { IsMoveStage layout.now result }
    ensures holds { HoldsNext result }
{
    if room.len() != size_of_group(layout, &copying) {
        return ended(Ending::Unnamed);
    }
    given(layout, errand, copying, room)
}

/// The stage behind a server's answer to the request for a group, which doesn't end every command.
fn answered(layout: &Layout, errand: Errand, copying: Copying, reply: &ChunkReply) -> Stage
    requires errand { IsErrand errand }
    requires at { IsCopying layout.now copying }
    requires room { HasRoom layout.now copying }
    ensures rest { rest_of_move layout.now result
        ≡ after_group layout.now (course_of layout.now errand copying.source) copying reply.now }
    ensures at { IsMoveStage layout.now result }
    ensures holds { HoldsNext result }
{
    match &reply.answer {
        ChunkAnswer::Fetched => taken(layout, errand, copying, reply.room.as_slice()),
        ChunkAnswer::Down => failed(layout, errand, copying, Cause::Down),
        ChunkAnswer::Lost { asked, now } => {
            let cause = Cause::Lost {
                asked: *asked,
                now: *now,
            };
            failed(layout, errand, copying, cause)
        }
        ChunkAnswer::Absent => failed(layout, errand, copying, Cause::Absent),
        ChunkAnswer::Fault => failed(layout, errand, copying, Cause::Fault),
        _ => ended(Ending::Unnamed),
    }
}

/// The stage behind a server's answer to the request for a group.
fn fetched(layout: &Layout, errand: Errand, copying: Copying, reply: &ChunkReply) -> Stage
    requires errand { IsErrand errand }
    requires at { IsCopying layout.now copying }
    requires room { HasRoom layout.now copying }
    ensures rest { rest_of_move layout.now result
        ≡ goes_on (rest_of_copying layout.now (course_of layout.now errand copying.source) copying)
        (NodeReply.Chunk reply.now) }
    ensures at { IsMoveStage layout.now result }
    ensures holds { HoldsNext result }
{
    match Ending::of_chunk(&reply.answer) {
        Some(ending) => {
            let source = copying.source;
            let after = After::Ended(ending);
            Stage::Delivering(errand, source, Delivery::Abandoning(copying.grant, after))
        }
        None => answered(layout, errand, copying, reply),
    }
}

/// The stage behind a node's reply to the request for a group. Takes no memory.
pub fn after_copying(layout: &Layout, errand: Errand, copying: Copying, reply: &NodeReply) -> Stage
    requires errand { IsErrand errand }
    requires at { IsCopying layout.now copying }
    requires room { HasRoom layout.now copying }
    ensures rest { rest_of_move layout.now result
        ≡ goes_on (rest_of_copying layout.now (course_of layout.now errand copying.source) copying)
        reply.now }
    ensures at { IsMoveStage layout.now result }
    ensures holds { HoldsNext result }
{
    match reply {
        NodeReply::Chunk(reply) => fetched(layout, errand, copying, reply),
        NodeReply::Meta(_) => ended(Ending::Unnamed),
    }
}
