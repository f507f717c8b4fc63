//! How a command that recovers slots goes on when a node has answered.
#![tactic(auto, unfolding(crate::specs::Rest::rest_of_recovery, crate::specs::Rest::report_of_recovery, crate::specs::Turns::after_answer, qfs_model_actor::specs::Recover::after_recover_at, qfs_model_actor::specs::Recover::after_heal_next, qfs_model_actor::specs::Hold::was_given_back, qfs_machine::specs::Endings::report_of_ending))]

ghost use Rattle.std.specs.Prelude.{◌≡◌, ℕ, true, IsSome};
ghost use Rattle.qfs_base.specs.Shape.{Shape};
ghost use Rattle.qfs_model_actor.specs.Grants.{is_in_range};
ghost use Rattle.qfs_model_actor.specs.Hold.{was_given_back};
ghost use Rattle.qfs_model_actor.specs.Read.{causes_of};
ghost use Rattle.qfs_model_actor.specs.Recover.{after_recover_at};
ghost use Rattle.qfs_model_actor.specs.Work.{goes_on};
ghost use Rattle.qfs_recover.specs.Rest.{course_of, rest_of_chunk, rest_of_recovery};
ghost use Rattle.qfs_recover.specs.Rest.{rest_of_starving, HoldsNext, IsErrand, IsHeal};
ghost use Rattle.qfs_recover.specs.Rest.{IsRecoveryStage, IsStarving, IsSupplied};
ghost use Rattle.qfs_recover.specs.Turns.{after_answer, after_heal, on_starved, rest_of_grant};
ghost use Rattle.qfs_recover.specs.Turns.{rest_starved, AsksMeta};

use crate::ending::RecoveryEnding;
use crate::restoring::{after_restoring, begin_group, ended, starve};
use crate::stage::{Errand, Heal, OneRecovery, Stage, Starving};
use crate::step::{after_step, starved};
use qfs_base::layout::Layout;
use qfs_base::listing::Listing;
use qfs_base::lists::CauseList;
use qfs_base::reply::{Granted, MetaReply, NodeReply};
use qfs_machine::Ending;
use qfs_repair::{Chunk, Delivery, is_grant_of, is_in_range, step_after};
use qfs_window::{Sources, are_too_few, sources_of};
use std::alloc::Global;

/// The stage of a command that makes a chunk anew under a grant in its range.
fn begin_chunk(alloc: Global, layout: &Layout, errand: Errand, grant: Granted) -> Stage
    requires errand { IsErrand errand }
    requires range { is_in_range grant ≡ true }
    ensures rest { rest_of_recovery layout.now result ≡ rest_of_chunk layout.now errand grant }
    ensures at { IsRecoveryStage layout.now result }
    ensures holds { HoldsNext result }
{
    let sources = sources_of(grant.sources.as_slice());
    if are_too_few(&sources) {
        return starve(errand, grant, sources);
    }
    if grant.rows == 0 {
        let chunk = Chunk::new(Listing::new(alloc));
        return Stage::Delivering(errand, Delivery::Storing(grant, chunk));
    }
    let chunk = Vec::new(alloc);
    let nine = Vec::new(alloc);
    begin_group(layout, errand, grant, chunk, 0, sources, nine)
}

/// The stage of a command whose slot was granted.
fn begin(alloc: Global, layout: &Layout, errand: Errand, grant: Granted) -> Stage
    requires { IsErrand errand }
    ensures rest { rest_of_recovery layout.now result ≡ rest_of_grant layout.now errand grant }
    ensures at { IsRecoveryStage layout.now result }
    ensures holds { HoldsNext result }
{
    if is_in_range(&grant) {
        begin_chunk(alloc, layout, errand, grant)
    } else {
        ended(Ending::Unnamed)
    }
}

/// The stage of a recovery of one slot whose grant has come: it may be of another slot.
fn one_granted(alloc: Global, layout: &Layout, one: &OneRecovery, grant: Granted) -> Stage
    ensures rest { rest_of_recovery layout.now result
        ≡ after_recover_at layout.now one.now.index one.now.slot (MetaReply.Granted grant) }
    ensures at { IsRecoveryStage layout.now result }
    ensures holds { HoldsNext result }
{
    if is_grant_of(one.index, one.slot, &grant) {
        begin(alloc, layout, Errand::One, grant)
    } else {
        ended(Ending::Unnamed)
    }
}

/// The ending of a recovery of one slot that was refused.
fn refused(answer: &MetaReply) -> RecoveryEnding
    requires { (grant : Granted) → answer.now ≡ MetaReply.Granted grant → ⊥ }
    ensures { (layout : Shape) (index slot : ℕ) → rest_of_recovery layout (Stage.Ended result)
        ≡ after_recover_at layout index slot answer.now }
{
    match answer {
        MetaReply::BadPath(refusal) => RecoveryEnding::BadPath(*refusal),
        MetaReply::NoBlock => RecoveryEnding::NoBlock,
        MetaReply::Taken { version } => RecoveryEnding::Taken { version: *version },
        MetaReply::Whole => RecoveryEnding::Whole,
        MetaReply::NoServer { block, slot } => RecoveryEnding::NoServer {
            block: *block,
            slot: *slot,
        },
        _ => RecoveryEnding::Common(Ending::Unnamed),
    }
}

/// The stage of a recovery of one slot at the answer to its request for a grant.
fn after_one(alloc: Global, layout: &Layout, one: &OneRecovery, answer: MetaReply) -> Stage
    ensures rest { rest_of_recovery layout.now result
        ≡ after_recover_at layout.now one.now.index one.now.slot answer }
    ensures at { IsRecoveryStage layout.now result }
    ensures holds { HoldsNext result }
{
    match answer {
        MetaReply::Granted(grant) => one_granted(alloc, layout, one, grant),
        answer => Stage::Ended(refused(&answer)),
    }
}

/// The stage of a heal at the answer to its request for the next missing slot.
fn after_heal(alloc: Global, layout: &Layout, at: Heal, answer: MetaReply) -> Stage
    requires { IsHeal at }
    ensures rest { rest_of_recovery layout.now result ≡ after_heal layout.now at answer }
    ensures at { IsRecoveryStage layout.now result }
    ensures holds { HoldsNext result }
{
    match answer {
        MetaReply::Granted(grant) => begin(alloc, layout, Errand::Heal(at), grant),
        MetaReply::Nothing => Stage::Ended(RecoveryEnding::Healed {
            healed: at.healed,
            failed: at.failed,
        }),
        MetaReply::NoServer { block, slot } => Stage::Ended(RecoveryEnding::HealNoServer {
            healed: at.healed,
            failed: at.failed,
            block,
            slot,
        }),
        _ => ended(Ending::Unnamed),
    }
}

/// The stage behind an answer of the metaserver that doesn't end every command.
fn answered(alloc: Global, layout: &Layout, stage: Stage, answer: MetaReply) -> Stage
    requires at { IsRecoveryStage layout.now stage }
    requires asks { AsksMeta stage }
    ensures rest { rest_of_recovery layout.now result ≡ after_answer layout.now stage answer }
    ensures at { IsRecoveryStage layout.now result }
    ensures holds { HoldsNext result }
{
    match stage {
        Stage::Asking(one) => after_one(alloc, layout, &one, answer),
        Stage::Healing(at) => after_heal(alloc, layout, at, answer),
        _ => unreachable!(),
    }
}

/// The stage behind an answer of the metaserver to a command that holds nothing there.
fn after_meta(alloc: Global, layout: &Layout, stage: Stage, answer: MetaReply) -> Stage
    requires at { IsRecoveryStage layout.now stage }
    requires asks { AsksMeta stage }
    ensures rest { rest_of_recovery layout.now result
        ≡ goes_on (rest_of_recovery layout.now stage) (NodeReply.Meta answer) }
    ensures at { IsRecoveryStage layout.now result }
    ensures holds { HoldsNext result }
{
    match Ending::of_meta(&answer) {
        Some(ending) => ended(ending),
        None => answered(alloc, layout, stage, answer),
    }
}

/// The stage behind a node's reply to a command that asks the metaserver and holds nothing there.
fn after_asking(alloc: Global, layout: &Layout, stage: Stage, reply: NodeReply) -> Stage
    requires at { IsRecoveryStage layout.now stage }
    requires asks { AsksMeta stage }
    ensures rest { rest_of_recovery layout.now result
        ≡ goes_on (rest_of_recovery layout.now stage) reply }
    ensures at { IsRecoveryStage layout.now result }
    ensures holds { HoldsNext result }
{
    match reply {
        NodeReply::Meta(answer) => after_meta(alloc, layout, stage, answer),
        NodeReply::Chunk(_) => ended(Ending::Unnamed),
    }
}

/// The stage of a command that gave a grant up since too few slots can be read, or whose answer
/// doesn't say so.
fn given_up(
    layout: &Layout,
    errand: Errand,
    grant: &Granted,
    sources: &Sources,
    causes: CauseList,
    answer: &MetaReply,
) -> Stage
    requires errand { IsErrand errand }
    requires causes { causes ≡ causes_of sources.now }
    ensures rest { rest_of_recovery layout.now result
        ≡ was_given_back (rest_starved layout.now errand grant.now sources.now) answer.now }
    ensures at { IsRecoveryStage layout.now result }
    ensures holds { HoldsNext result }
{
    let _ = sources;
    match answer {
        MetaReply::Done { .. } => starved(layout, errand, grant, causes),
        _ => ended(Ending::Unnamed),
    }
}

/// The same at any answer of the metaserver.
fn after_giving_up(
    layout: &Layout,
    errand: Errand,
    grant: &Granted,
    sources: &Sources,
    causes: CauseList,
    answer: &MetaReply,
) -> Stage
    requires errand { IsErrand errand }
    requires causes { causes ≡ causes_of sources.now }
    ensures rest { rest_of_recovery layout.now result
        ≡ on_starved layout.now errand grant.now sources.now answer.now }
    ensures at { IsRecoveryStage layout.now result }
    ensures holds { HoldsNext result }
{
    match Ending::of_meta(answer) {
        Some(ending) => ended(ending),
        None => given_up(layout, errand, grant, sources, causes, answer),
    }
}

/// The stage behind a node's reply to a command that gives a grant up since too few slots can be
/// read.
fn after_starving(
    layout: &Layout,
    errand: Errand,
    grant: &Granted,
    sources: &Sources,
    causes: CauseList,
    reply: &NodeReply,
) -> Stage
    requires errand { IsErrand errand }
    requires causes { causes ≡ causes_of sources.now }
    ensures rest { rest_of_recovery layout.now result
        ≡ goes_on (rest_of_starving (course_of layout.now errand) grant.now sources.now) reply.now }
    ensures at { IsRecoveryStage layout.now result }
    ensures holds { HoldsNext result }
{
    match reply {
        NodeReply::Meta(answer) => {
            after_giving_up(layout, errand, grant, sources, causes, answer)
        }
        NodeReply::Chunk(_) => ended(Ending::Unnamed),
    }
}

/// The same, of a grant for whose causes there is the memory.
fn starved_by(layout: &Layout, errand: Errand, starving: Starving, reply: &NodeReply) -> Stage
    requires errand { IsErrand errand }
    requires at { IsStarving starving }
    requires some { IsSome starving.causes }
    ensures rest { rest_of_recovery layout.now result
        ≡ goes_on (rest_of_starving (course_of layout.now errand) starving.grant starving.sources)
        reply.now }
    ensures at { IsRecoveryStage layout.now result }
    ensures holds { HoldsNext result }
{
    let Starving {
        grant,
        sources,
        causes,
    } = starving;
    match causes {
        Some(causes) => after_starving(layout, errand, &grant, &sources, causes, reply),
        None => unreachable!(),
    }
}

/// The stage behind a node's reply, for which there is the memory. A command that has ended stays
/// so.
pub fn stage_after(alloc: Global, layout: &Layout, stage: Stage, reply: NodeReply) -> Stage
    requires at { IsRecoveryStage layout.now stage }
    requires supplied { IsSupplied layout.now stage }
    ensures rest { rest_of_recovery layout.now result
        ≡ goes_on (rest_of_recovery layout.now stage) reply }
    ensures at { IsRecoveryStage layout.now result }
    ensures holds { HoldsNext result }
{
    match stage {
        Stage::Restoring(errand, restoring) => after_restoring(layout, errand, restoring, &reply),
        Stage::Starving(errand, starving) => starved_by(layout, errand, starving, &reply),
        Stage::Delivering(errand, delivery) => {
            after_step(layout, errand, step_after(delivery, &reply))
        }
        Stage::Ended(ending) => Stage::Ended(ending),
        stage => after_asking(alloc, layout, stage, reply),
    }
}
