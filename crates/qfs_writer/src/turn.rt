//! How a put goes on when a node has answered.
#![tactic(auto, unfolding(crate::specs::Rest::rest_of_put, crate::specs::Rest::report_of_put, qfs_machine::specs::Endings::ended_by, qfs_machine::specs::Endings::report_of_ending, crate::specs::Moves::on_answer_at, crate::specs::Moves::on_grant, crate::specs::Moves::on_store, crate::specs::Moves::behind_store, crate::specs::Moves::hold_at, qfs_model_actor::specs::Put::closed, qfs_model_actor::specs::Put::aborted, qfs_model_actor::specs::Put::chosen, qfs_model_actor::specs::Put::created, qfs_model_actor::specs::Tree::refused, qfs_model_actor::specs::Ask::on_served, qfs_model_actor::specs::Ask::after_store, qfs_model_actor::specs::Hold::on_answer, qfs_model_actor::specs::Hold::was_given_back, qfs_model_actor::specs::Hold::end_with, qfs_model_actor::specs::Hold::give_back, qfs_model_actor::specs::Grants::is_grant_of))]

ghost use Rattle.std.specs.Prelude.{◌≡◌, ◌+◌, length, true, false};
ghost use Rattle.qfs_base.specs.declared.chunk.Copy.{Copy};
ghost use Rattle.qfs_model_actor.specs.Grants.{is_grant_of};
ghost use Rattle.qfs_model_actor.specs.Hold.{end_with, on_answer, was_given_back};
ghost use Rattle.qfs_model_actor.specs.Put.{aborted, closed, put_blocks_from};
ghost use Rattle.qfs_model_actor.specs.Tree.{refused};
ghost use Rattle.qfs_model_actor.specs.Work.{ends};
ghost use Rattle.qfs_machine.specs.Endings.{ended_by, report_of_ending};
ghost use Rattle.qfs_writer.specs.Moves.{after_create, behind_store, hold_at, on_answer_at};
ghost use Rattle.qfs_writer.specs.Moves.{on_grant, on_store, rest_after, AsksMeta};
ghost use Rattle.qfs_writer.specs.Rest.{bytes_put, fresh_slot, rest_behind, rest_of_put};
ghost use Rattle.qfs_writer.specs.Rest.{IsPutSlot, IsPutStage};

use crate::stage::{Put, PutEnding, PutSlot, Stage};
use qfs_base::chunk::Copy;
use qfs_base::numbers::{FileId, Slot};
use qfs_base::reply::{ChunkAnswer, Granted, MetaReply, NodeReply};
use qfs_base::sizes::SLOTS;
use qfs_machine::Ending;

/// The last slot of a block.
const LAST_SLOT: Slot = SLOTS - 1;

/// How many grants of one slot a put takes.
const MOST_GRANTS: u8 = 64;

/// The stage of a put that ends at once, as any command may.
fn ended(ending: Ending) -> Stage
    ensures { result ≡ Stage.Ended (PutEnding.Common ending) }
{
    Stage::Ended(PutEnding::Common(ending))
}

/// The stage of a put at a slot that has had no server yet.
fn at_slot(file: FileId, index: u32, slot: Slot) -> Stage
    ensures { result ≡ Stage.Granting (fresh_slot file index slot) }
{
    Stage::Granting(PutSlot {
        file,
        index,
        slot,
        grants: MOST_GRANTS,
        again: false,
    })
}

/// The stage of a put whose file is there.
fn begun(put: &Put, file: FileId) -> Stage
    ensures rest { rest_of_put put.now result
        ≡ put_blocks_from put.now.layout (bytes_put put.now) file 0 }
    ensures at { IsPutStage put.now result }
{
    if put.blocks() == 0 {
        Stage::Closing(file)
    } else {
        at_slot(file, 0, 0)
    }
}

/// The stage of a put behind a slot that was stored: at the next slot of its block, at the first
/// one of the next block, or at the end of the file.
fn behind(put: &Put, at: PutSlot) -> Stage
    requires { IsPutSlot put.now at }
    ensures rest { rest_of_put put.now result ≡ rest_behind put.now at }
    ensures at { IsPutStage put.now result }
{
    if at.slot < LAST_SLOT {
        return at_slot(at.file, at.index, at.slot + 1);
    }
    let blocks = put.blocks();
    if at.index + 1 < blocks {
        at_slot(at.file, at.index + 1, 0)
    } else {
        Stage::Closing(at.file)
    }
}

/// The stage of a put that wants something else than this answer to its first request: it ends at
/// a refusal of the tree.
fn refused(put: &Put, answer: &MetaReply) -> Stage
    ensures rest { rest_of_put put.now result ≡ refused answer.now }
    ensures at { IsPutStage put.now result }
{
    match answer {
        MetaReply::Refused { refusal, place } => Stage::Ended(PutEnding::Refused {
            place: *place,
            refusal: *refusal,
        }),
        _ => ended(Ending::Unnamed),
    }
}

/// The stage of a put at the answer to its first request.
fn created(put: &Put, answer: &MetaReply) -> Stage
    ensures rest { rest_of_put put.now result ≡ after_create put.now answer.now }
    ensures at { IsPutStage put.now result }
{
    match answer {
        MetaReply::Created { file, .. } => begun(put, *file),
        _ => refused(put, answer),
    }
}

/// Whether a grant is one of the block and slot that were asked for.
fn is_grant_of(at: PutSlot, grant: &Granted) -> bool
    ensures { result ≡ is_grant_of at.index at.slot grant.now }
{
    grant.block.index == at.index && grant.slot == at.slot
}

/// The stage of a put at a grant.
fn use_grant(put: &Put, at: PutSlot, grant: &Granted) -> Stage
    requires { IsPutSlot put.now at }
    ensures rest { rest_of_put put.now result ≡ on_grant put.now at (MetaReply.Granted grant.now) }
    ensures at { IsPutStage put.now result }
{
    if at.grants == 0 || !is_grant_of(at, grant) {
        return ended(Ending::Unnamed);
    }
    let copy = Copy {
        server: grant.server,
        life: grant.life,
        version: grant.version,
    };
    let at = PutSlot {
        file: at.file,
        index: at.index,
        slot: at.slot,
        grants: at.grants - 1,
        again: at.again,
    };
    Stage::Storing(at, copy)
}

/// The stage of a put at the answer to its request for a server.
fn granted(put: &Put, at: PutSlot, answer: &MetaReply) -> Stage
    requires { IsPutSlot put.now at }
    ensures rest { rest_of_put put.now result ≡ on_grant put.now at answer.now }
    ensures at { IsPutStage put.now result }
{
    match answer {
        MetaReply::Granted(grant) => use_grant(put, at, grant),
        MetaReply::NoServer { .. } => Stage::Aborting(at.file, at.index, at.slot),
        _ => ended(Ending::Unnamed),
    }
}

/// The stage of a put whose server for a slot failed.
fn grant_again(at: PutSlot) -> Stage
    ensures { result ≡ Stage.Granting (record at { again = true }) }
{
    Stage::Granting(PutSlot {
        file: at.file,
        index: at.index,
        slot: at.slot,
        grants: at.grants,
        again: true,
    })
}

/// The stage of a put at a server's answer to a slot that is stored there, which doesn't end every
/// command.
fn stored(put: &Put, at: PutSlot, answer: &ChunkAnswer) -> Stage
    requires { IsPutSlot put.now at }
    ensures rest { rest_of_put put.now result ≡ behind_store put.now at answer.now }
    ensures at { IsPutStage put.now result }
{
    match answer {
        ChunkAnswer::Stored => behind(put, at),
        ChunkAnswer::Down | ChunkAnswer::Lost { .. } | ChunkAnswer::Fault => grant_again(at),
        _ => ended(Ending::Unnamed),
    }
}

/// The stage of a put at a server's answer to a slot that is stored there.
fn on_chunk(put: &Put, at: PutSlot, answer: &ChunkAnswer) -> Stage
    requires { IsPutSlot put.now at }
    ensures rest { rest_of_put put.now result ≡ on_store put.now at answer.now }
    ensures at { IsPutStage put.now result }
{
    match Ending::of_chunk(answer) {
        Some(ending) => Stage::GivingUp(at.file, ending),
        None => stored(put, at, answer),
    }
}

/// The ending of a put at the answer to its request to close the file.
fn closed(put: &Put, answer: &MetaReply) -> PutEnding
    ensures { rest_of_put put.now (Stage.Ended result)
        ≡ closed (length (bytes_put put.now)) answer.now }
{
    match answer {
        MetaReply::Done { place } => PutEnding::Stored {
            place: *place,
            len: put.len(),
        },
        _ => PutEnding::Common(Ending::Unnamed),
    }
}

/// The ending of a put that found no server for a slot, at the answer to its request to give the
/// file up.
fn aborted(put: &Put, index: u32, slot: Slot, answer: &MetaReply) -> PutEnding
    ensures { rest_of_put put.now (Stage.Ended result) ≡ aborted index slot answer.now }
{
    match answer {
        MetaReply::Done { place } => PutEnding::NoServer {
            place: *place,
            index,
            slot,
        },
        _ => PutEnding::Common(Ending::Unnamed),
    }
}

/// The ending of a put that gave its file up, to end so.
fn given_up(put: &Put, ending: Ending, answer: &MetaReply) -> Ending
    ensures { rest_of_put put.now (Stage.Ended (PutEnding.Common result))
        ≡ was_given_back (ends (report_of_ending ending)) answer.now }
{
    match answer {
        MetaReply::Done { .. } => ending,
        _ => Ending::Unnamed,
    }
}

/// The stage of a put that gives up what it holds and ends so: its file, if this very request
/// wasn't to make it or to give it up.
fn give_up(put: &Put, stage: Stage, ending: Ending) -> Stage
    ensures rest { rest_of_put put.now result ≡ end_with (hold_at stage) (report_of_ending ending) }
    ensures at { IsPutStage put.now result }
{
    match stage {
        Stage::Granting(at) => Stage::GivingUp(at.file, ending),
        Stage::Closing(file) => Stage::GivingUp(file, ending),
        _ => ended(ending),
    }
}

/// The stage of a put that an answer of the metaserver ends. A dropped actor holds nothing.
fn end(put: &Put, stage: Stage, ending: Ending) -> Stage
    ensures rest { rest_of_put put.now result ≡ ended_by (end_with (hold_at stage)) ending }
    ensures at { IsPutStage put.now result }
{
    match ending {
        Ending::Dropped { .. } | Ending::Unnamed => ended(ending),
        _ => give_up(put, stage, ending),
    }
}

/// The stage of a put at an answer of the metaserver that doesn't end every command.
fn answered(put: &Put, stage: Stage, answer: &MetaReply) -> Stage
    requires { IsPutStage put.now stage }
    ensures rest { rest_of_put put.now result ≡ on_answer_at put.now stage answer.now }
    ensures at { IsPutStage put.now result }
{
    match stage {
        Stage::Creating => created(put, answer),
        Stage::Granting(at) => granted(put, at, answer),
        Stage::Closing(_) => Stage::Ended(closed(put, answer)),
        Stage::Aborting(_, index, slot) => Stage::Ended(aborted(put, index, slot, answer)),
        Stage::GivingUp(_, ending) => ended(given_up(put, ending, answer)),
        Stage::Storing(..) | Stage::Ended(_) => ended(Ending::Unnamed),
    }
}

/// The stage of a put at an answer of the metaserver.
fn on_meta(put: &Put, stage: Stage, answer: &MetaReply) -> Stage
    requires { IsPutStage put.now stage }
    ensures rest { rest_of_put put.now result
        ≡ on_answer (end_with (hold_at stage)) (on_answer_at put.now stage) answer.now }
    ensures at { IsPutStage put.now result }
{
    match Ending::of_meta(answer) {
        Some(ending) => end(put, stage, ending),
        None => answered(put, stage, answer),
    }
}

/// The stage of a put that asked the metaserver, at a node's reply.
fn after_question(put: &Put, stage: Stage, reply: &NodeReply) -> Stage
    requires at { IsPutStage put.now stage }
    requires asks { AsksMeta stage }
    ensures rest { rest_of_put put.now result ≡ rest_after put.now stage reply.now }
    ensures at { IsPutStage put.now result }
{
    match reply {
        NodeReply::Meta(answer) => on_meta(put, stage, answer),
        NodeReply::Chunk(_) => ended(Ending::Unnamed),
    }
}

/// The stage of a put that asked a server to store a slot, at a node's reply.
fn after_store(put: &Put, at: PutSlot, reply: &NodeReply) -> Stage
    requires { IsPutSlot put.now at }
    ensures rest { (copy : Copy) →
        rest_of_put put.now result ≡ rest_after put.now (Stage.Storing at copy) reply.now }
    ensures at { IsPutStage put.now result }
{
    match reply {
        NodeReply::Chunk(reply) => on_chunk(put, at, &reply.answer),
        NodeReply::Meta(_) => ended(Ending::Unnamed),
    }
}

/// The stage of a put after a node's reply to its request. One that has ended stays so.
pub fn stage_after(put: &Put, stage: Stage, reply: &NodeReply) -> Stage
    requires { IsPutStage put.now stage }
    ensures rest { rest_of_put put.now result ≡ rest_after put.now stage reply.now }
    ensures at { IsPutStage put.now result }
{
    match stage {
        Stage::Storing(at, _) => after_store(put, at, reply),
        Stage::Ended(_) => stage,
        _ => after_question(put, stage, reply),
    }
}
