//! How a sweep goes on when a node has answered.
#![tactic(auto, unfolding(crate::specs::Rest::rest_of_sweep, crate::specs::Rest::report_of_sweep, crate::specs::Turns::after_answer, qfs_model_actor::specs::Sweep::sweep_on, qfs_model_actor::specs::Sweep::after_order, qfs_model_actor::specs::Sweep::after_erase, qfs_model_actor::specs::Hold::was_given_back, qfs_machine::specs::Endings::report_of_ending))]

ghost use Rattle.std.specs.Prelude.{◌≡◌, ◌+◌, ◌<◌, ◌^◌, ℕ, List};
ghost use Rattle.qfs_model_actor.specs.Sweep.{sweep_on};
ghost use Rattle.qfs_model_actor.specs.Work.{goes_on};
ghost use Rattle.qfs_sweep.specs.Rest.{rest_of_sweep, IsSweepStage};
ghost use Rattle.qfs_sweep.specs.Turns.{after_answer, after_erased, strange_stage, AsksMeta};

use crate::stage::{Progress, Stage, SweepEnding};
use qfs_base::reply::{ChunkAnswer, Condemned, MetaReply, NodeReply};
use qfs_machine::Ending;

/// The stage of a sweep that ends as any command may.
fn ended(ending: Ending) -> Stage
    ensures { result ≡ Stage.Ended (SweepEnding.Common ending) }
{
    Stage::Ended(SweepEnding::Common(ending))
}

/// The stage of a sweep that has deleted so many copies, and goes on with those above a number, if
/// it may delete more.
pub fn sweep_on(more: u32, after: u64, erased: u32) -> Stage
    requires { erased + more < 2 ^ 32 }
    ensures rest { rest_of_sweep result ≡ sweep_on more after erased }
    ensures at { IsSweepStage result }
{
    if more == 0 {
        return Stage::Ended(SweepEnding::Swept { erased });
    }
    let more = more - 1;
    let at = Progress { more, erased };
    Stage::Ordering { at, after }
}

/// The stage behind an answer of the metaserver that doesn't end every command.
fn answered(stage: Stage, answer: &MetaReply) -> Stage
    requires at { IsSweepStage stage }
    requires asks { AsksMeta stage }
    ensures rest { rest_of_sweep result ≡ after_answer stage answer.now }
    ensures at { IsSweepStage result }
{
    match (stage, answer) {
        (Stage::Ordering { at, .. }, MetaReply::Ordered { condemned, .. }) => {
            let condemned = *condemned;
            Stage::Erasing { at, condemned }
        }
        (Stage::Ordering { at, .. }, MetaReply::Nothing) => {
            let erased = at.erased;
            Stage::Ended(SweepEnding::Swept { erased })
        }
        (Stage::Saying { at, number }, MetaReply::Done { .. }) => {
            sweep_on(at.more, number, at.erased)
        }
        _ => ended(Ending::Unnamed),
    }
}

/// The stage behind an answer of the metaserver to its request.
fn after_meta(stage: Stage, answer: &MetaReply) -> Stage
    requires at { IsSweepStage stage }
    requires asks { AsksMeta stage }
    ensures rest { rest_of_sweep result
        ≡ goes_on (rest_of_sweep stage) (NodeReply.Meta answer.now) }
    ensures at { IsSweepStage result }
{
    match Ending::of_meta(answer) {
        Some(ending) => ended(ending),
        None => answered(stage, answer),
    }
}

/// The stage behind a server's answer to the deletion of a copy that doesn't end every command.
fn erased(at: Progress, condemned: Condemned, answer: &ChunkAnswer) -> Stage
    requires { at.erased + at.more + 1 < 2 ^ 32 }
    ensures rest { rest_of_sweep result ≡ after_erased at condemned answer.now }
    ensures at { IsSweepStage result }
{
    let number = condemned.number;
    match answer {
        ChunkAnswer::Erased => {
            let erased = at.erased + 1;
            let at = Progress { erased, ..at };
            Stage::Saying { at, number }
        }
        ChunkAnswer::Absent => Stage::Saying { at, number },
        ChunkAnswer::Down | ChunkAnswer::Lost { .. } | ChunkAnswer::Fault => {
            sweep_on(at.more, number, at.erased)
        }
        _ => ended(Ending::Unnamed),
    }
}

/// The stage behind a server's answer to the deletion of a copy.
fn after_server(at: Progress, condemned: Condemned, answer: &ChunkAnswer) -> Stage
    requires { at.erased + at.more + 1 < 2 ^ 32 }
    ensures rest { (room : List ℕ) → rest_of_sweep result
        ≡ goes_on (rest_of_sweep (Stage.Erasing at condemned))
        (NodeReply.Chunk (record { answer = answer.now; room = room })) }
    ensures at { IsSweepStage result }
{
    match Ending::of_chunk(answer) {
        Some(ending) => ended(ending),
        None => erased(at, condemned, answer),
    }
}

/// The stage behind a reply of a node that wasn't asked: a sweep that has ended stays so.
fn strange(stage: Stage) -> Stage
    ensures stage { result ≡ strange_stage stage }
    ensures at { IsSweepStage result }
{
    match stage {
        Stage::Ended(ending) => Stage::Ended(ending),
        _ => ended(Ending::Unnamed),
    }
}

/// The stage behind a node's reply.
pub fn stage_after(stage: Stage, reply: &NodeReply) -> Stage
    requires { IsSweepStage stage }
    ensures rest { rest_of_sweep result ≡ goes_on (rest_of_sweep stage) reply.now }
    ensures at { IsSweepStage result }
{
    match reply {
        NodeReply::Meta(answer) => match stage {
            Stage::Ordering { .. } | Stage::Saying { .. } => after_meta(stage, answer),
            _ => strange(stage),
        },
        NodeReply::Chunk(reply) => match stage {
            Stage::Erasing { at, condemned } => after_server(at, condemned, &reply.answer),
            _ => strange(stage),
        },
    }
}
