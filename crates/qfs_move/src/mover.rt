//! The machine of moves.

ghost use Rattle.std.specs.Prelude.{◌≡◌, None};
ghost use Rattle.qfs_machine.specs.declared.machine.Readiness.{Readiness};
ghost use Rattle.qfs_model_actor.specs.Move.{evacuate_work, move_work, rebalance_work};
ghost use Rattle.qfs_model_actor.specs.Work.{ends, request_in};
ghost use Rattle.qfs_move.specs.Rest.{report_of_move, rest_of_mover};
ghost use Rattle.qfs_repair.specs.Deliveries.{IsAskedByRepair};

use crate::ending::MoveEnding;
use crate::request::{node_of, prepare};
use crate::stage::{OneMove, Stage};
use crate::step::balance_on;
use crate::turn::stage_after;
use qfs_base::command::{Excerpt, Reply};
use qfs_base::numbers::{NodeId, ServerId, Slot};
use qfs_base::path::Path;
use qfs_base::reply::NodeReply;
use qfs_base::request::NodeRequest;
use qfs_machine::{Ending, Machine, Pending, Readiness};
use qfs_stripe::Layout;
use std::alloc::{AllocError, Global};
use std::marker::Model;
use std::mem;

/// A command at work that moves copies. Contracts see the layout of the files, what the command
/// waits for, and how it stands to its next request. What is left of it is a tree of questions, by
/// the definition of the command.
///
/// It holds one chunk at most, and hands it on with no copy of it.
#[derive(Drop)]
pub struct Mover {
    alloc: Global,
    layout: Layout,
    stage: Stage,
    pending: Pending,
}

impl Model for Mover {
    ghost use Rattle.qfs_move.specs.Rest.{MoverState};

    ghost Value = { MoverState };

    ghost use Rattle.qfs_machine.specs.Asking.{IsPrepared};
    ghost use Rattle.qfs_move.specs.Rest.{rest_of_move, IsMoveStage, IsSetFor};
    ghost use Rattle.qfs_repair.specs.Deliveries.{IsAskedByRepair};

    ghost view = { λ it.
        record { layout = it.layout; stage = it.stage; readiness = it.pending.readiness } };

    ghost invariant = { λ it.
        IsMoveStage it.layout it.stage
        × IsPrepared IsAskedByRepair (rest_of_move it.layout it.stage) it.pending.readiness
        it.pending.request
        × IsSetFor it.pending.readiness it.layout it.stage };
}

impl Mover {
    /// The move of the copy of a slot, of block `index` of the file at a path, to a server. Takes no
    /// memory.
    pub fn move_one(
        alloc: Global,
        layout: Layout,
        path: Path,
        index: u32,
        slot: Slot,
        to: ServerId,
    ) -> Mover
        ensures rest { rest_of_mover result ≡ move_work layout path index slot to }
        ensures unready { result.readiness ≡ Readiness.Unready }
    {
        let one = OneMove {
            path,
            index,
            slot,
            to,
        };
        Mover {
            alloc,
            layout,
            stage: Stage::Asking(one),
            pending: Pending::nothing(),
        }
    }

    /// A rebalancing of at most so many moves, which ends at the first that fails. Takes no memory.
    pub fn rebalance(alloc: Global, layout: Layout, budget: u32) -> Mover
        ensures rest { rest_of_mover result ≡ rebalance_work layout budget }
        ensures unready { result.readiness ≡ Readiness.Unready }
    {
        let stage = balance_on(&layout, budget, 0);
        Mover {
            alloc,
            layout,
            stage,
            pending: Pending::nothing(),
        }
    }

    /// The evacuation of a server by at most so many moves. Takes no memory.
    pub fn evacuate(alloc: Global, layout: Layout, server: ServerId, budget: u32) -> Mover
        ensures rest { rest_of_mover result ≡ evacuate_work layout server budget }
        ensures unready { result.readiness ≡ Readiness.Unready }
    {
        Mover {
            alloc,
            layout,
            stage: Stage::Leaving { server, budget },
            pending: Pending::nothing(),
        }
    }

    /// How the command has ended.
    fn ending(&self) -> MoveEnding
        requires { request_in (rest_of_mover self.now) ≡ None }
        ensures { rest_of_mover self.now ≡ ends (report_of_move result) }
    {
        match &self.stage {
            Stage::Ended(ending) => *ending,
            _ => unreachable!(),
        }
    }
}

impl Machine for Mover {
    ghost rest = { rest_of_mover };

    ghost readiness = { λ it. it.readiness };

    ghost may_ask = { IsAskedByRepair };

    fn ready(&mut self) -> Result<(), AllocError> {
        match self.pending.readiness {
            Readiness::Unready => {
                let request = prepare(self.alloc, &self.layout, &mut self.stage)?;
                self.pending = Pending::ready(request);
                Ok(())
            }
            _ => Ok(()),
        }
    }

    fn goes_to(&self) -> Option<NodeId> {
        node_of(&self.layout, &self.stage)
    }

    fn next(&mut self) -> Option<NodeRequest> {
        self.pending.hand_out()
    }

    fn took(&mut self, reply: NodeReply) {
        let ended = Stage::Ended(MoveEnding::Common(Ending::Unnamed));
        let stage = mem::replace(&mut self.stage, ended);
        self.stage = stage_after(self.alloc, &self.layout, stage, reply);
        self.pending = Pending::nothing();
    }

    fn into_reply(self) -> Reply<Excerpt> {
        self.ending().into_reply()
    }
}
