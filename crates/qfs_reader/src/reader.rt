//! The machine of a get.

ghost use Rattle.std.specs.Prelude.{◌≡◌, ◌≤◌};
ghost use Rattle.qfs_machine.specs.Askable.{IsAskable};
ghost use Rattle.qfs_machine.specs.Kept.{Reports};
ghost use Rattle.qfs_machine.specs.declared.machine.Readiness.{Readiness};
ghost use Rattle.qfs_model_actor.specs.Get.{get_work, range_of};
ghost use Rattle.qfs_reader.specs.Rest.{rest_after, rest_of_get};
ghost use Rattle.qfs_reader.specs.ReaderState.{rest_of_reader, IsEnd, IsGetStage, IsSupplied};

use crate::fetch::{ended, fetched};
use crate::meta::{opened, released};
use crate::request::{node_of, request_at};
use crate::stage::{Get, Stage};
use crate::supply::supply;
use qfs_base::command::{Excerpt, Range, Reply};
use qfs_base::numbers::NodeId;
use qfs_base::path::Path;
use qfs_base::reply::{ChunkReply, MetaReply, NodeReply};
use qfs_base::request::NodeRequest;
use qfs_base::sizes::MOST_FILE_BYTES;
use qfs_machine::{Ending, Machine, Pending, Readiness};
use qfs_stripe::Layout;
use std::alloc::{AllocError, Global};
use std::marker::Model;
use std::mem;

/// A get at work. Contracts see what is wanted, what the get waits for, and how it stands to its
/// next request. What is left of it is a tree of questions, by the definition of a get.
#[derive(Drop)]
pub struct Reader {
    alloc: Global,
    get: Get,
    stage: Stage,
    pending: Pending,
}

impl Model for Reader {
    ghost use Rattle.qfs_reader.specs.ReaderState.{ReaderState};

    ghost Value = { ReaderState };

    ghost use Rattle.qfs_machine.specs.Askable.{IsAskable};
    ghost use Rattle.qfs_machine.specs.Asking.{IsPrepared};
    ghost use Rattle.qfs_reader.specs.Rest.{rest_of_get};
    ghost use Rattle.qfs_reader.specs.ReaderState.{IsGetStage, IsSuppliedWhile};

    ghost view = { λ it.
        record { get = it.get; stage = it.stage; readiness = it.pending.readiness } };

    ghost invariant = { λ it.
        IsGetStage it.get it.stage
        × IsPrepared IsAskable (rest_of_get it.get it.stage) it.pending.readiness
        it.pending.request
        × IsSuppliedWhile it.pending.readiness it.get it.stage };
}

impl Reader {
    /// The get of the bytes of the file at this path, or of a range of them, which opens its file
    /// up to `tries` times. Takes no memory.
    pub fn new(
        alloc: Global,
        path: Path,
        range: Option<Range>,
        layout: Layout,
        tries: u32,
    ) -> Reader
        requires { 1 ≤ tries }
        ensures rest { rest_of_reader result ≡ get_work layout tries path range }
        ensures unready { result.readiness ≡ Readiness.Unready }
    {
        let get = Get {
            layout,
            path,
            range: range_of(range),
        };
        Reader {
            alloc,
            get,
            stage: Stage::Opening { more: tries - 1 },
            pending: Pending::nothing(),
        }
    }
}

/// The bytes that are wanted: without a range, as many as a file can have.
#[tactic(auto, unfolding(qfs_model_actor::specs::Get::range_of))]
fn range_of(range: Option<Range>) -> Range
    ensures { result ≡ range_of range }
{
    match range {
        Some(range) => range,
        None => Range {
            from: 0,
            count: MOST_FILE_BYTES,
        },
    }
}

/// The stage of a get behind the reply to its request, for whose reply it has the memory.
fn stage_after(alloc: Global, get: &Get, stage: Stage, reply: NodeReply) -> Stage
    requires at { IsGetStage get.now stage }
    requires supplied { IsSupplied get.now stage }
    ensures rest { rest_of_get get.now result ≡ rest_after get.now stage reply }
    ensures at { IsGetStage get.now result }
{
    match reply {
        NodeReply::Meta(answer) => after_meta(alloc, get, stage, answer),
        NodeReply::Chunk(reply) => after_chunk(get, stage, &reply),
    }
}

/// The stage of a get at an answer of the metaserver.
#[tactic(auto, unfolding(crate::specs::Rest::rest_of_get, qfs_model_actor::specs::Work::goes_on, qfs_model_actor::specs::Hold::on_meta, qfs_model_actor::specs::Hold::ask_or, qfs_model_actor::specs::Hold::end_with, qfs_model_actor::specs::Hold::give_back, qfs_model_actor::specs::Ask::ask, qfs_model_actor::specs::Get::attempt))]
fn after_meta(alloc: Global, get: &Get, stage: Stage, answer: MetaReply) -> Stage
    requires at { IsGetStage get.now stage }
    requires supplied { IsSupplied get.now stage }
    ensures rest { rest_of_get get.now result ≡ rest_after get.now stage (NodeReply.Meta answer) }
    ensures at { IsGetStage get.now result }
{
    match stage {
        Stage::Opening { more } => opened(alloc, get, more, answer),
        Stage::Reading(..) => ended(Ending::Unnamed),
        Stage::Releasing(_, ending, kept) => match kept {
            Some(kept) => released(get, Stage::Ended(ending, kept), &answer),
            None => unreachable!(),
        },
        Stage::Retrying { more, .. } => released(get, Stage::Opening { more }, &answer),
        Stage::Ended(ending, kept) => Stage::Ended(ending, kept),
    }
}

/// The stage of a get at an answer of a chunk server.
fn after_chunk(get: &Get, stage: Stage, reply: &ChunkReply) -> Stage
    requires at { IsGetStage get.now stage }
    requires supplied { IsSupplied get.now stage }
    ensures rest { rest_of_get get.now result
        ≡ rest_after get.now stage (NodeReply.Chunk reply.now) }
    ensures at { IsGetStage get.now result }
{
    match stage {
        Stage::Reading(attempt, position) => fetched(get, attempt, position, reply),
        Stage::Ended(ending, kept) => Stage::Ended(ending, kept),
        _ => ended(Ending::Unnamed),
    }
}

/// The report of a get that has ended, as it is kept.
fn into_kept(get: &Get, stage: Stage) -> Reply<Excerpt>
    requires at { IsGetStage get.now stage }
    requires ended { IsEnd stage }
    ensures { Reports (rest_of_get get.now stage) result }
{
    let _ = get;
    match stage {
        Stage::Ended(_, kept) => kept,
        _ => unreachable!(),
    }
}

impl Machine for Reader {
    ghost rest = { rest_of_reader };

    ghost readiness = { λ it. it.readiness };

    ghost may_ask = { IsAskable };

    fn ready(&mut self) -> Result<(), AllocError> {
        match self.pending.readiness {
            Readiness::Unready => {
                supply(self.alloc, &self.get, &mut self.stage)?;
                let request = request_at(self.alloc, &self.get, &self.stage)?;
                self.pending = Pending::ready(request);
                Ok(())
            }
            _ => Ok(()),
        }
    }

    fn goes_to(&self) -> Option<NodeId> {
        node_of(&self.get, &self.stage)
    }

    fn next(&mut self) -> Option<NodeRequest> {
        self.pending.hand_out()
    }

    fn took(&mut self, reply: NodeReply) {
        let stage = mem::replace(&mut self.stage, Stage::Opening { more: 0 });
        self.stage = stage_after(self.alloc, &self.get, stage, reply);
        self.pending = Pending::nothing();
    }

    fn into_reply(self) -> Reply<Excerpt> {
        let Reader { get, stage, .. } = self;
        into_kept(&get, stage)
    }
}
