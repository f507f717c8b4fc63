//! How a command on a server goes on when a node has answered.
#![tactic(auto, unfolding(crate::specs::Rest::rest_of_change, crate::specs::Rest::report_of_change, crate::specs::Rest::report_of_up, crate::specs::Turns::after_served, crate::specs::Turns::after_answer, qfs_model_actor::specs::Servers::stop_work, qfs_model_actor::specs::Servers::after_bye, qfs_model_actor::specs::Servers::after_stop, qfs_model_actor::specs::Servers::after_hello, qfs_model_actor::specs::Servers::after_inventory, qfs_model_actor::specs::Servers::tell_copies, qfs_model_actor::specs::Servers::after_start, qfs_model_actor::specs::Servers::after_wipe, qfs_model_actor::specs::Servers::after_rest, qfs_model_actor::specs::Servers::after_hibernate, qfs_model_actor::specs::Servers::after_upgrade, qfs_machine::specs::Endings::report_of_ending))]

ghost use Rattle.std.specs.Prelude.{◌≡◌, ℕ};
ghost use Rattle.qfs_model_actor.specs.Servers.{after_bye, after_hello, after_hibernate};
ghost use Rattle.qfs_model_actor.specs.Servers.{after_stop, after_rest, after_start, after_wipe};
ghost use Rattle.qfs_model_actor.specs.Servers.{after_inventory, after_upgrade};
ghost use Rattle.qfs_model_actor.specs.Work.{goes_on};
ghost use Rattle.qfs_hiber.specs.Rest.{rest_of_change, report_of_up};
ghost use Rattle.qfs_hiber.specs.Turns.{after_answer, after_served, strange_stage};
ghost use Rattle.qfs_hiber.specs.Turns.{AsksMeta, AsksServer};

use crate::ending::{ChangeEnding, Up};
use crate::stage::Stage;
use qfs_base::numbers::ServerId;
use qfs_base::reply::{ChunkAnswer, ChunkReply, MetaReply, NodeReply};
use qfs_machine::Ending;

/// The stage of a command that ends so.
fn ended(ending: ChangeEnding) -> Stage
    ensures { result ≡ Stage.Ended ending }
{
    Stage::Ended(ending)
}

/// The stage of a command whose node answered what its request doesn't allow.
fn unnamed() -> Stage
    ensures { result ≡ Stage.Ended (ChangeEnding.Common Ending.Unnamed) }
{
    ended(ChangeEnding::Common(Ending::Unnamed))
}

/// The metaserver was told that the server is down.
fn parted(answer: &MetaReply) -> Stage
    ensures { (server : ℕ) → rest_of_change server result ≡ after_bye answer.now }
{
    match answer {
        MetaReply::Done { .. } => ended(ChangeEnding::Stopped),
        _ => unnamed(),
    }
}

/// The metaserver was told of the server's life and keys.
fn told(up: Up, answer: &MetaReply) -> Stage
    ensures { (server : ℕ)
        → rest_of_change server result ≡ after_hello (report_of_up up) answer.now }
{
    match answer {
        MetaReply::Done { .. } | MetaReply::Old { .. } => ended(ChangeEnding::Up(up)),
        _ => unnamed(),
    }
}

/// The metaserver was told that the server will be down for a time.
fn announced(answer: &MetaReply) -> Stage
    ensures { (server : ℕ) → rest_of_change server result ≡ after_hibernate server answer.now }
{
    match answer {
        MetaReply::Until { clock } => Stage::Resting { until: *clock },
        MetaReply::NotUp => ended(ChangeEnding::NotUp),
        _ => unnamed(),
    }
}

/// The stage behind an answer of the metaserver that doesn't end every command.
fn answered(server: ServerId, stage: &Stage, answer: &MetaReply) -> Stage
    requires { AsksMeta stage.now }
    ensures { rest_of_change server result ≡ after_answer server stage.now answer.now }
{
    let _ = server;
    match stage {
        Stage::Parting => parted(answer),
        Stage::Telling(up, ..) => told(*up, answer),
        Stage::Announcing { .. } => announced(answer),
        _ => unreachable!(),
    }
}

/// The stage behind an answer of the metaserver to its request.
fn after_meta(server: ServerId, stage: &Stage, answer: &MetaReply) -> Stage
    requires { AsksMeta stage.now }
    ensures { rest_of_change server result
        ≡ goes_on (rest_of_change server stage.now) (NodeReply.Meta answer.now) }
{
    match Ending::of_meta(answer) {
        Some(ending) => ended(ChangeEnding::Common(ending)),
        None => answered(server, stage, answer),
    }
}

/// The server was to stop.
fn stopped(answer: ChunkAnswer) -> Stage
    ensures { (server : ℕ) → rest_of_change server result ≡ after_stop server answer }
{
    match answer {
        ChunkAnswer::Stopped => Stage::Parting,
        _ => unnamed(),
    }
}

/// It was to stop, and is expected back.
fn rested(until: u64, answer: ChunkAnswer) -> Stage
    ensures { (server : ℕ) → rest_of_change server result ≡ after_rest until answer }
{
    match answer {
        ChunkAnswer::Stopped => ended(ChangeEnding::Hibernating { until }),
        _ => unnamed(),
    }
}

/// It was to start.
fn started(answer: ChunkAnswer) -> Stage
    ensures { (server : ℕ) → rest_of_change server result ≡ after_start server answer }
{
    match answer {
        ChunkAnswer::Started { life } => Stage::Listing(Up::Started { life }),
        ChunkAnswer::Fault => ended(ChangeEnding::Fault),
        _ => unnamed(),
    }
}

/// It was to be wiped.
fn wiped(answer: ChunkAnswer) -> Stage
    ensures { (server : ℕ) → rest_of_change server result ≡ after_wipe server answer }
{
    match answer {
        ChunkAnswer::Wiped { life } => Stage::Listing(Up::Wiped { life }),
        ChunkAnswer::Fault => ended(ChangeEnding::Fault),
        _ => unnamed(),
    }
}

/// It was asked for its life and keys, or it is down again.
fn listed(up: Up, answer: ChunkAnswer) -> Stage
    ensures { (server : ℕ) → rest_of_change server result
        ≡ after_inventory server (report_of_up up) answer }
{
    match answer {
        ChunkAnswer::Inventory { life, keys } => Stage::Telling(up, life, keys),
        ChunkAnswer::Down => ended(ChangeEnding::Up(up)),
        _ => unnamed(),
    }
}

/// It was to write its chunk records in the second version.
fn upgraded(answer: ChunkAnswer) -> Stage
    ensures { (server : ℕ) → rest_of_change server result ≡ after_upgrade answer }
{
    match answer {
        ChunkAnswer::Upgraded => ended(ChangeEnding::Upgraded),
        ChunkAnswer::Down => ended(ChangeEnding::Down),
        _ => unnamed(),
    }
}

/// The stage behind an answer of the server that doesn't end every command.
fn served(server: ServerId, stage: &Stage, answer: ChunkAnswer) -> Stage
    requires { AsksServer stage.now }
    ensures { rest_of_change server result ≡ after_served server stage.now answer }
{
    let _ = server;
    match stage {
        Stage::Stopping => stopped(answer),
        Stage::Resting { until } => rested(*until, answer),
        Stage::Starting => started(answer),
        Stage::Wiping => wiped(answer),
        Stage::Listing(up) => listed(*up, answer),
        Stage::Upgrading => upgraded(answer),
        _ => unreachable!(),
    }
}

/// The stage behind an answer of the server to its request.
fn after_server(server: ServerId, stage: &Stage, reply: ChunkReply) -> Stage
    requires { AsksServer stage.now }
    ensures { rest_of_change server result
        ≡ goes_on (rest_of_change server stage.now) (NodeReply.Chunk reply) }
{
    match Ending::of_chunk(&reply.answer) {
        Some(ending) => ended(ChangeEnding::Common(ending)),
        None => served(server, stage, reply.answer),
    }
}

/// The stage behind a reply of a node that wasn't asked: a command that has ended stays so.
fn strange(stage: &Stage) -> Stage
    ensures { result ≡ strange_stage stage.now }
{
    match stage {
        Stage::Ended(ending) => ended(*ending),
        _ => unnamed(),
    }
}

/// The stage behind a node's reply.
pub fn stage_after(server: ServerId, stage: &Stage, reply: NodeReply) -> Stage
    ensures { rest_of_change server result ≡ goes_on (rest_of_change server stage.now) reply }
{
    match reply {
        NodeReply::Meta(answer) => {
            if stage.asks_meta() {
                after_meta(server, stage, &answer)
            } else {
                strange(stage)
            }
        }
        NodeReply::Chunk(reply) => {
            if stage.asks_server() {
                after_server(server, stage, reply)
            } else {
                strange(stage)
            }
        }
    }
}
