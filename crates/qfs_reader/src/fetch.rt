//! How a get goes on when a chunk server has answered.
#![tactic(auto, unfolding(crate::specs::Rest::rest_of_get, crate::specs::Rest::report_of_get, crate::specs::Rest::rest_if_filled, qfs_machine::specs::Endings::report_of_ending, qfs_model_actor::specs::Ask::after_fetch))]

ghost use Rattle.std.specs.Prelude.{◌≡◌, ◌+◌, ◌<◌, length};
ghost use Rattle.qfs_base.specs.Sizes.{SLOTS};
ghost use Rattle.qfs_machine.specs.Endings.{report_of_ending};
ghost use Rattle.qfs_model_actor.specs.Shown.{kept_report};
ghost use Rattle.qfs_model_actor.specs.Work.{goes_on};
ghost use Rattle.qfs_reader.specs.Rest.{rest_of_get, rest_of_position, rest_from_slot};
ghost use Rattle.qfs_reader.specs.Rest.{rest_if_filled, rest_with_piece, rest_without};
ghost use Rattle.qfs_reader.specs.Rest.{after_slot, window_bytes};
ghost use Rattle.qfs_reader.specs.ReaderState.{IsGetStage, IsInWindow, IsPosition, WantsFrom};
ghost use Rattle.qfs_reader.specs.ReaderState.{HasRoomOnceGiven, HasWindowRoom};
ghost use Rattle.qfs_reader.specs.declared.stage.GetEnding.TheVariants as With;
ghost use Rattle.qfs_reader.specs.declared.stage.Stage.TheVariants as At;

use crate::block::{too_few, window_read};
use crate::parts::keep_part;
use crate::sources::{are_too_few, next_source};
use crate::stage::{Attempt, Get, GetEnding, Position, Stage};
use crate::window::window_bytes;
use qfs_base::lists::Cause;
use qfs_base::reply::{ChunkAnswer, ChunkReply, NodeReply};
use qfs_base::sizes::DATA_SLOTS;
use qfs_machine::Ending;

/// The stage of a get that ends at once, as any command may.
pub fn ended(ending: Ending) -> Stage
    ensures { result ≡ At.Ended (With.Common ending) (kept_report (report_of_ending ending)) }
{
    Stage::Ended(GetEnding::Common(ending), ending.into_reply())
}

/// The stage of a get that goes on to the slots of its window behind the present one.
fn next_slot(get: &Get, attempt: Attempt, position: Position) -> Stage
    requires window { IsInWindow get.now attempt position }
    requires slot { position.slot < SLOTS }
    requires more { WantsFrom position (position.slot + 1) }
    requires room { HasRoomOnceGiven get.now attempt position }
    ensures rest { rest_of_get get.now result
        ≡ rest_from_slot get.now attempt position (position.slot + 1) }
    ensures at { IsGetStage get.now result }
{
    let _ = get;
    let mut position = position;
    let (slot, copy) = next_source(&position.sources, position.slot + 1);
    position.slot = slot;
    position.copy = copy;
    Stage::Reading(attempt, position)
}

/// The stage of a get whose slot failed.
fn failed(get: &Get, attempt: Attempt, position: Position, cause: Cause) -> Stage
    requires { IsPosition get.now attempt position }
    ensures rest { rest_of_get get.now result ≡ rest_without get.now attempt position cause }
    ensures at { IsGetStage get.now result }
{
    let mut position = position;
    position.sources[position.slot as usize] = Err(cause);
    if are_too_few(&position.sources) {
        return too_few(get, attempt, position.block, position.sources);
    }
    next_slot(get, attempt, position)
}

/// The stage of a get whose slot gave its bytes.
fn given(get: &Get, attempt: Attempt, position: Position, bytes: &[u8]) -> Stage
    requires at { IsPosition get.now attempt position }
    requires room { HasWindowRoom get.now attempt position.window }
    requires bytes { length bytes.now ≡ window_bytes get.now.layout position.window }
    ensures rest { rest_of_get get.now result ≡ rest_with_piece get.now attempt position bytes.now }
    ensures at { IsGetStage get.now result }
{
    let mut attempt = attempt;
    let mut position = position;
    position.have = keep_part(
        &mut attempt.nine,
        bytes.len(),
        position.have,
        position.slot,
        bytes,
    );
    if position.have.count() >= DATA_SLOTS as usize {
        return window_read(get, attempt, position);
    }
    next_slot(get, attempt, position)
}

/// The stage of a get whose slot was fetched.
fn taken(get: &Get, attempt: Attempt, position: Position, room: &[u8]) -> Stage
    requires at { IsPosition get.now attempt position }
    requires room { HasWindowRoom get.now attempt position.window }
    ensures rest { rest_of_get get.now result ≡ rest_if_filled get.now attempt position room.now }
    ensures at { IsGetStage get.now result }
{
    if room.len() != window_bytes(&get.layout, &position.window) {
        return ended(Ending::Unnamed);
    }
    given(get, attempt, position, room)
}

/// The stage of a get at a server's answer to its request for bytes of a slot, which doesn't end
/// every command.
fn answered(get: &Get, attempt: Attempt, position: Position, reply: &ChunkReply) -> Stage
    requires at { IsPosition get.now attempt position }
    requires room { HasWindowRoom get.now attempt position.window }
    ensures rest { rest_of_get get.now result ≡ after_slot get.now attempt position reply.now }
    ensures at { IsGetStage get.now result }
{
    match &reply.answer {
        ChunkAnswer::Fetched => taken(get, attempt, position, reply.room.as_slice()),
        ChunkAnswer::Down => failed(get, attempt, position, Cause::Down),
        ChunkAnswer::Lost { asked, now } => {
            let cause = Cause::Lost {
                asked: *asked,
                now: *now,
            };
            failed(get, attempt, position, cause)
        }
        ChunkAnswer::Absent => failed(get, attempt, position, Cause::Absent),
        ChunkAnswer::Fault => failed(get, attempt, position, Cause::Fault),
        _ => ended(Ending::Unnamed),
    }
}

/// The stage of a get at a server's answer to its request for bytes of a slot.
pub fn fetched(get: &Get, attempt: Attempt, position: Position, reply: &ChunkReply) -> Stage
    requires at { IsPosition get.now attempt position }
    requires room { HasWindowRoom get.now attempt position.window }
    ensures rest { rest_of_get get.now result
        ≡ goes_on (rest_of_position get.now attempt position) (NodeReply.Chunk reply.now) }
    ensures at { IsGetStage get.now result }
{
    match Ending::of_chunk(&reply.answer) {
        Some(ending) => { Stage::Releasing(attempt.opened.lease, GetEnding::Common(ending), None) }
        None => answered(get, attempt, position, reply),
    }
}
