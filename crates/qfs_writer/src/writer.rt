//! The machine of a put.

ghost use Rattle.std.specs.Prelude.{◌≡◌, None};
ghost use Rattle.qfs_base.specs.Recipe.{bytes_of};
ghost use Rattle.qfs_machine.specs.Askable.{IsAskable};
ghost use Rattle.qfs_machine.specs.declared.machine.Readiness.{Readiness};
ghost use Rattle.qfs_model_actor.specs.Put.{put_work};
ghost use Rattle.qfs_model_actor.specs.Work.{ends, request_in};
ghost use Rattle.qfs_writer.specs.Rest.{report_of_put};
ghost use Rattle.qfs_writer.specs.WriterState.{rest_of_writer};

use crate::request::{node_of, request_at};
use crate::stage::{Put, PutEnding, Stage};
use crate::turn::stage_after;
use qfs_base::command::{Excerpt, Reply};
use qfs_base::numbers::NodeId;
use qfs_base::path::Path;
use qfs_base::recipe::Recipe;
use qfs_base::reply::NodeReply;
use qfs_base::request::NodeRequest;
use qfs_machine::{Machine, Pending, Readiness};
use qfs_stripe::Layout;
use std::alloc::{AllocError, Global};
use std::marker::Model;

/// A put at work. Contracts see what is put, what the put waits for, and how it stands to its next
/// request. What is left of it is a tree of questions, by the definition of a put.
///
/// It makes the bytes of a slot anew for each request that stores them.
#[derive(Drop)]
pub struct Writer {
    alloc: Global,
    put: Put,
    stage: Stage,
    pending: Pending,
}

impl Model for Writer {
    ghost use Rattle.qfs_writer.specs.WriterState.{WriterState};

    ghost Value = { WriterState };

    ghost use Rattle.qfs_machine.specs.Askable.{IsAskable};
    ghost use Rattle.qfs_machine.specs.Asking.{IsPrepared};
    ghost use Rattle.qfs_writer.specs.Rest.{rest_of_put, IsPutStage};

    ghost view = { λ it.
        record { put = it.put; stage = it.stage; readiness = it.pending.readiness } };

    ghost invariant = { λ it.
        IsPutStage it.put it.stage
        × IsPrepared IsAskable (rest_of_put it.put it.stage) it.pending.readiness
        it.pending.request };
}

impl Writer {
    /// The put of a recipe's bytes as a new file at this path, which is the actor's command of this
    /// number, from 1. Takes no memory.
    pub fn new(alloc: Global, layout: Layout, number: u16, path: Path, recipe: Recipe) -> Writer
        ensures rest { rest_of_writer result ≡ put_work layout number path (bytes_of recipe) }
        ensures unready { result.readiness ≡ Readiness.Unready }
    {
        let put = Put {
            layout,
            number,
            path,
            recipe,
        };
        Writer {
            alloc,
            put,
            stage: Stage::Creating,
            pending: Pending::nothing(),
        }
    }

    /// How the put has ended.
    fn ending(&self) -> PutEnding
        requires { request_in (rest_of_writer self.now) ≡ None }
        ensures { rest_of_writer self.now ≡ ends (report_of_put result) }
    {
        match self.stage {
            Stage::Ended(ending) => ending,
            _ => unreachable!(),
        }
    }
}

impl Machine for Writer {
    ghost rest = { rest_of_writer };

    ghost readiness = { λ it. it.readiness };

    ghost may_ask = { IsAskable };

    fn ready(&mut self) -> Result<(), AllocError> {
        match self.pending.readiness {
            Readiness::Unready => {
                let request = request_at(self.alloc, &self.put, self.stage)?;
                self.pending = Pending::ready(request);
                Ok(())
            }
            _ => Ok(()),
        }
    }

    fn goes_to(&self) -> Option<NodeId> {
        node_of(self.stage)
    }

    fn next(&mut self) -> Option<NodeRequest> {
        self.pending.hand_out()
    }

    fn took(&mut self, reply: NodeReply) {
        self.stage = stage_after(&self.put, self.stage, &reply);
        self.pending = Pending::nothing();
    }

    fn into_reply(self) -> Reply<Excerpt> {
        self.ending().into_reply()
    }
}
