//! The machine of recoveries.

ghost use Rattle.std.specs.Prelude.{◌≡◌, None};
ghost use Rattle.qfs_machine.specs.Kept.{Reports};
ghost use Rattle.qfs_machine.specs.declared.machine.Readiness.{Readiness};
ghost use Rattle.qfs_model_actor.specs.Recover.{heal_work, recover_work};
ghost use Rattle.qfs_model_actor.specs.Work.{request_in};
ghost use Rattle.qfs_recover.specs.Rest.{rest_of_recovery, rest_of_state, IsRecoveryStage};
ghost use Rattle.qfs_repair.specs.Deliveries.{IsAskedByRepair};

use crate::ending::RecoveryEnding;
use crate::request::{node_of, prepare};
use crate::stage::{Heal, OneRecovery, Stage};
use crate::step::heal_on;
use crate::turn::stage_after;
use qfs_base::command::{Excerpt, Reply};
use qfs_base::layout::Layout;
use qfs_base::numbers::{NodeId, Slot};
use qfs_base::path::Path;
use qfs_base::reply::NodeReply;
use qfs_base::request::NodeRequest;
use qfs_machine::{Ending, Machine, Pending, Readiness};
use std::alloc::{AllocError, Global};
use std::marker::Model;
use std::mem;

/// A command at work that recovers slots. Contracts see the layout of the files, what the command
/// waits for, and how it stands to its next request. What is left of it is a tree of questions, by
/// the definition of the command.
///
/// It holds one window of nine slots and one chunk beside it, and hands the chunk on with no copy
/// of it.
#[derive(Drop)]
pub struct Recovery {
    alloc: Global,
    layout: Layout,
    stage: Stage,
    pending: Pending,
}

impl Model for Recovery {
    ghost use Rattle.qfs_recover.specs.Rest.{RecoveryState};

    ghost Value = { RecoveryState };

    ghost use Rattle.qfs_machine.specs.Asking.{IsPrepared};
    ghost use Rattle.qfs_recover.specs.Rest.{rest_of_recovery, IsRecoveryStage, IsSetFor};
    ghost use Rattle.qfs_repair.specs.Deliveries.{IsAskedByRepair};

    ghost view = { λ it.
        record { layout = it.layout; stage = it.stage; readiness = it.pending.readiness } };

    ghost invariant = { λ it.
        IsRecoveryStage it.layout it.stage
        × IsPrepared IsAskedByRepair (rest_of_recovery it.layout it.stage) it.pending.readiness
        it.pending.request
        × IsSetFor it.pending.readiness it.layout it.stage };
}

impl Recovery {
    /// The recovery of a slot, of block `index` of the file at a path. Takes no memory.
    pub fn recover_one(
        alloc: Global,
        layout: Layout,
        path: Path,
        index: u32,
        slot: Slot,
    ) -> Recovery
        ensures rest { rest_of_state result ≡ recover_work layout path index slot }
        ensures unready { result.readiness ≡ Readiness.Unready }
    {
        let one = OneRecovery { path, index, slot };
        Recovery {
            alloc,
            layout,
            stage: Stage::Asking(one),
            pending: Pending::nothing(),
        }
    }

    /// The recovery of at most so many missing slots. Takes no memory.
    pub fn heal(alloc: Global, layout: Layout, budget: u32) -> Recovery
        ensures rest { rest_of_state result ≡ heal_work layout budget }
        ensures unready { result.readiness ≡ Readiness.Unready }
    {
        let at = Heal {
            more: budget,
            after: None,
            healed: 0,
            failed: 0,
        };
        let stage = heal_on(&layout, at);
        Recovery {
            alloc,
            layout,
            stage,
            pending: Pending::nothing(),
        }
    }
}

/// The report of a command that has ended, as it is kept.
fn into_kept(layout: &Layout, stage: Stage) -> Reply<Excerpt>
    requires at { IsRecoveryStage layout.now stage }
    requires ended { request_in (rest_of_recovery layout.now stage) ≡ None }
    ensures { Reports (rest_of_recovery layout.now stage) result }
{
    let _ = layout;
    match stage {
        Stage::Ended(ending) => ending.into_reply(),
        _ => unreachable!(),
    }
}

impl Machine for Recovery {
    ghost rest = { rest_of_state };

    ghost readiness = { λ it. it.readiness };

    ghost may_ask = { IsAskedByRepair };

    fn ready(&mut self) -> Result<(), AllocError> {
        match self.pending.readiness {
            Readiness::Unready => {
                let request = prepare(self.alloc, &self.layout, &mut self.stage)?;
                self.pending = Pending::ready(request);
                Ok(())
            }
            _ => Ok(()),
        }
    }

    fn goes_to(&self) -> Option<NodeId> {
        node_of(&self.layout, &self.stage)
    }

    fn next(&mut self) -> Option<NodeRequest> {
        self.pending.hand_out()
    }

    fn took(&mut self, reply: NodeReply) {
        let ended = Stage::Ended(RecoveryEnding::Common(Ending::Unnamed));
        let stage = mem::replace(&mut self.stage, ended);
        self.stage = stage_after(self.alloc, &self.layout, stage, reply);
        self.pending = Pending::nothing();
    }

    fn into_reply(self) -> Reply<Excerpt> {
        let Recovery { layout, stage, .. } = self;
        into_kept(&layout, stage)
    }
}
