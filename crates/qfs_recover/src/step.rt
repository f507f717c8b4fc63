//! How a command goes on behind a slot that was recovered, or could not be.
#![tactic(auto, unfolding(crate::specs::Rest::rest_of_recovery, crate::specs::Rest::report_of_recovery, crate::specs::Rest::done_of, crate::specs::Rest::failed_of, qfs_repair::specs::Deliveries::rest_of_step, qfs_repair::specs::Deliveries::report_of_failure, qfs_machine::specs::Endings::report_of_ending, qfs_model_actor::specs::Recover::heal_on))]

ghost use Rattle.std.specs.Prelude.{◌≡◌, ◌+◌, ◌<◌, ◌^◌};
ghost use Rattle.qfs_base.specs.Shape.{Shape};
ghost use Rattle.qfs_base.specs.declared.command.Reply.TheVariants as Report;
ghost use Rattle.qfs_model_actor.specs.Recover.{heal_on, one_not_healed};
ghost use Rattle.qfs_recover.specs.Rest.{course_of, done_of, failed_of, healing_of};
ghost use Rattle.qfs_recover.specs.Rest.{rest_of_recovery, HoldsNext, IsErrand, IsHeal};
ghost use Rattle.qfs_recover.specs.Rest.{IsRecoveryStage};
ghost use Rattle.qfs_repair.specs.Deliveries.{report_of_failure, rest_of_step, IsStep};

use crate::ending::RecoveryEnding;
use crate::restoring::ended;
use crate::stage::{Errand, Heal, Stage};
use qfs_base::layout::Layout;
use qfs_base::lists::CauseList;
use qfs_base::reply::Granted;
use qfs_base::request::SlotId;
use qfs_repair::{Failure, Step};

/// The stage of a heal that stands so, and may recover `more` slots from here on.
pub fn heal_on(layout: &Layout, at: Heal) -> Stage
    requires { at.healed + at.failed + at.more < 2 ^ 32 }
    ensures rest { rest_of_recovery layout.now result ≡ heal_on layout.now at.more (healing_of at) }
    ensures at { IsRecoveryStage layout.now result }
    ensures holds { HoldsNext result }
{
    let _ = layout;
    if at.more == 0 {
        return Stage::Ended(RecoveryEnding::Healed {
            healed: at.healed,
            failed: at.failed,
        });
    }
    Stage::Healing(Heal {
        more: at.more - 1,
        after: at.after,
        healed: at.healed,
        failed: at.failed,
    })
}

/// The slot of a grant.
fn slot_of(grant: &Granted) -> SlotId
    ensures { result ≡ record { block = grant.now.block; slot = grant.now.slot } }
{
    SlotId {
        block: grant.block,
        slot: grant.slot,
    }
}

/// The ending of a command whose one slot was recovered.
fn recovered(grant: &Granted) -> RecoveryEnding
    ensures { (layout : Shape) → rest_of_recovery layout (Stage.Ended result)
        ≡ done_of layout grant.now Errand.One }
{
    RecoveryEnding::Recovered {
        block: grant.block,
        slot: grant.slot,
        server: grant.server,
        version: grant.version,
    }
}

/// The stage behind a slot that was recovered.
fn done(layout: &Layout, errand: Errand, grant: &Granted) -> Stage
    requires { IsErrand errand }
    ensures rest { rest_of_recovery layout.now result ≡ done_of layout.now grant.now errand }
    ensures at { IsRecoveryStage layout.now result }
    ensures holds { HoldsNext result }
{
    match errand {
        Errand::One => Stage::Ended(recovered(grant)),
        Errand::Heal(at) => {
            let at = Heal {
                more: at.more,
                after: Some(slot_of(grant)),
                healed: at.healed + 1,
                failed: at.failed,
            };
            heal_on(layout, at)
        }
    }
}

/// The stage of a heal behind a slot that could not be recovered.
fn heal_past(layout: &Layout, at: Heal, grant: &Granted) -> Stage
    requires { IsHeal at }
    ensures rest { rest_of_recovery layout.now result
        ≡ heal_on layout.now at.more (one_not_healed (healing_of at) grant.now) }
    ensures at { IsRecoveryStage layout.now result }
    ensures holds { HoldsNext result }
{
    let at = Heal {
        more: at.more,
        after: Some(slot_of(grant)),
        healed: at.healed,
        failed: at.failed + 1,
    };
    heal_on(layout, at)
}

/// The stage behind a slot that could not be recovered: a heal goes on.
fn not_done(layout: &Layout, errand: Errand, grant: &Granted, failure: Failure) -> Stage
    requires { IsErrand errand }
    ensures rest { rest_of_recovery layout.now result
        ≡ failed_of layout.now grant.now (report_of_failure failure) errand }
    ensures at { IsRecoveryStage layout.now result }
    ensures holds { HoldsNext result }
{
    match errand {
        Errand::One => Stage::Ended(RecoveryEnding::Failed(failure)),
        Errand::Heal(at) => heal_past(layout, at, grant),
    }
}

/// The stage behind a slot of whose block too few others can be read, for these causes.
pub fn starved(layout: &Layout, errand: Errand, grant: &Granted, causes: CauseList) -> Stage
    requires { IsErrand errand }
    ensures rest { rest_of_recovery layout.now result
        ≡ failed_of layout.now grant.now (Report.TooFew grant.now.block.index causes) errand }
    ensures at { IsRecoveryStage layout.now result }
    ensures holds { HoldsNext result }
{
    match errand {
        Errand::One => Stage::Ended(RecoveryEnding::TooFew {
            index: grant.block.index,
            causes,
        }),
        Errand::Heal(at) => heal_past(layout, at, grant),
    }
}

/// The stage behind what came of a chunk on its way. Takes no memory.
pub fn after_step(layout: &Layout, errand: Errand, step: Step) -> Stage
    requires errand { IsErrand errand }
    requires step { IsStep step }
    ensures rest { rest_of_recovery layout.now result
        ≡ rest_of_step (course_of layout.now errand) step }
    ensures at { IsRecoveryStage layout.now result }
    ensures holds { HoldsNext result }
{
    match step {
        Step::Goes(delivery) => Stage::Delivering(errand, delivery),
        Step::Done(grant) => done(layout, errand, &grant),
        Step::Failed(grant, failure) => not_done(layout, errand, &grant, failure),
        Step::Ended(ending) => ended(ending),
    }
}
