//! How a chunk goes on under its grant when a node has answered.
#![tactic(auto, unfolding(crate::specs::Deliveries::rest_of_delivery, crate::specs::Deliveries::rest_of_step, crate::specs::Deliveries::rest_of_after, crate::specs::Deliveries::report_of_failure, qfs_model_actor::specs::Repair::after_confirm, qfs_model_actor::specs::Repair::give_up, qfs_model_actor::specs::Ask::after_store, qfs_model_actor::specs::Hold::was_given_back, qfs_model_actor::specs::Hold::end_with, qfs_machine::specs::Endings::report_of_ending, qfs_machine::specs::Endings::ended_by))]

ghost use Rattle.std.specs.Prelude.{◌≡◌, List, ℕ};
ghost use Rattle.qfs_machine.specs.Endings.{ended_by, report_of_ending};
ghost use Rattle.qfs_model_actor.specs.Hold.{end_with, granted, was_given_back};
ghost use Rattle.qfs_model_actor.specs.Repair.{after_confirm};
ghost use Rattle.qfs_model_actor.specs.Work.{goes_on};
ghost use Rattle.qfs_repair.specs.Deliveries.{Course, rest_of_after, rest_of_delivery, rest_of_step};
ghost use Rattle.qfs_repair.specs.Deliveries.{after_put, on_abandon, on_confirm, on_put};
ghost use Rattle.qfs_repair.specs.Deliveries.{IsStep};

use crate::delivery::{After, Delivery};
use crate::failure::Failure;
use qfs_base::lists::Cause;
use qfs_base::reply::{ChunkAnswer, Granted, MetaReply, NodeReply};
use qfs_machine::Ending;

/// What comes of a node's answer to a chunk on its way.
#[derive(Drop)]
pub enum Step {
    /// It goes on.
    Goes(Delivery),
    /// It is the slot's copy.
    Done(Granted),
    /// The slot has failed so.
    Failed(Granted, Failure),
    /// The command ends, as any may.
    Ended(Ending),
}

/// A grant is given up, since an answer ends the command. A dropped actor holds none.
pub fn give_up(grant: Granted, ending: Ending) -> Step
    ensures rest { (course : Course)
        → rest_of_step course result ≡ ended_by (end_with (granted grant)) ending }
    ensures at { IsStep result }
{
    match ending {
        Ending::Dropped { .. } | Ending::Unnamed => Step::Ended(ending),
        _ => Step::Goes(Delivery::Abandoning(grant, After::Ended(ending))),
    }
}

/// The chunk could not be stored.
fn not_stored(grant: Granted, cause: Cause) -> Step
    ensures { result ≡ Step.Goes (Delivery.Abandoning grant
        (After.Failed (Failure.Dest grant.server cause))) }
{
    let server = grant.server;
    let failure = Failure::Dest { server, cause };
    Step::Goes(Delivery::Abandoning(grant, After::Failed(failure)))
}

/// A server's answer to the chunk, which doesn't end every command.
fn stored(grant: Granted, answer: &ChunkAnswer) -> Step
    ensures rest { (course : Course)
        → rest_of_step course result ≡ after_put course grant answer.now }
    ensures at { IsStep result }
{
    match answer {
        ChunkAnswer::Stored => Step::Goes(Delivery::Confirming(grant)),
        ChunkAnswer::Down => not_stored(grant, Cause::Down),
        ChunkAnswer::Lost { asked, now } => {
            let cause = Cause::Lost {
                asked: *asked,
                now: *now,
            };
            not_stored(grant, cause)
        }
        ChunkAnswer::Fault => not_stored(grant, Cause::Fault),
        _ => Step::Ended(Ending::Unnamed),
    }
}

/// A server's answer to the chunk.
fn after_storing(grant: Granted, answer: &ChunkAnswer) -> Step
    ensures rest { (course : Course)
        → rest_of_step course result ≡ on_put course grant answer.now }
    ensures at { IsStep result }
{
    match Ending::of_chunk(answer) {
        Some(ending) => Step::Goes(Delivery::Abandoning(grant, After::Ended(ending))),
        None => stored(grant, answer),
    }
}

/// The metaserver's answer to a chunk that was stored, which doesn't end every command.
fn confirmed(grant: Granted, answer: &MetaReply) -> Step
    ensures rest { (course : Course) → rest_of_step course result
        ≡ after_confirm (course.done grant) (course.failed grant) answer.now }
    ensures at { IsStep result }
{
    match answer {
        MetaReply::Confirmed => Step::Done(grant),
        MetaReply::Vanished => Step::Failed(grant, Failure::Gone),
        _ => Step::Ended(Ending::Unnamed),
    }
}

/// The metaserver's answer to a chunk that was stored.
fn after_confirming(grant: Granted, answer: &MetaReply) -> Step
    ensures rest { (course : Course)
        → rest_of_step course result ≡ on_confirm course grant answer.now }
    ensures at { IsStep result }
{
    match Ending::of_meta(answer) {
        Some(ending) => give_up(grant, ending),
        None => confirmed(grant, answer),
    }
}

/// What follows once a grant was given up.
fn given_up(grant: Granted, after: After) -> Step
    ensures rest { (course : Course)
        → rest_of_step course result ≡ rest_of_after course grant after }
    ensures at { IsStep result }
{
    match after {
        After::Failed(failure) => Step::Failed(grant, failure),
        After::Ended(ending) => Step::Ended(ending),
    }
}

/// The metaserver's answer to a grant that is given up, which doesn't end every command.
fn abandoned(grant: Granted, after: After, answer: &MetaReply) -> Step
    ensures rest { (course : Course) → rest_of_step course result
        ≡ was_given_back (rest_of_after course grant after) answer.now }
    ensures at { IsStep result }
{
    match answer {
        MetaReply::Done { .. } => given_up(grant, after),
        _ => Step::Ended(Ending::Unnamed),
    }
}

/// The metaserver's answer to a grant that is given up.
fn after_abandoning(grant: Granted, after: After, answer: &MetaReply) -> Step
    ensures rest { (course : Course)
        → rest_of_step course result ≡ on_abandon course grant after answer.now }
    ensures at { IsStep result }
{
    match Ending::of_meta(answer) {
        Some(ending) => Step::Ended(ending),
        None => abandoned(grant, after, answer),
    }
}

/// A metaserver's answer to a chunk on its way. Takes no memory.
fn after_meta(delivery: Delivery, answer: &MetaReply) -> Step
    ensures rest { (course : Course) → rest_of_step course result
        ≡ goes_on (rest_of_delivery course delivery) (NodeReply.Meta answer.now) }
    ensures at { IsStep result }
{
    match delivery {
        Delivery::Storing(..) => Step::Ended(Ending::Unnamed),
        Delivery::Confirming(grant) => after_confirming(grant, answer),
        Delivery::Abandoning(grant, after) => after_abandoning(grant, after, answer),
    }
}

/// A chunk server's answer to a chunk on its way. Takes no memory.
fn after_server(delivery: Delivery, answer: &ChunkAnswer) -> Step
    ensures rest { (course : Course) (room : List ℕ) → rest_of_step course result
        ≡ goes_on (rest_of_delivery course delivery)
        (NodeReply.Chunk (record { answer = answer.now; room = room })) }
    ensures at { IsStep result }
{
    match delivery {
        Delivery::Storing(grant, _) => after_storing(grant, answer),
        _ => Step::Ended(Ending::Unnamed),
    }
}

/// What comes of a node's reply to a chunk on its way. Takes no memory.
pub fn step_after(delivery: Delivery, reply: &NodeReply) -> Step
    ensures rest { (course : Course) → rest_of_step course result
        ≡ goes_on (rest_of_delivery course delivery) reply.now }
    ensures at { IsStep result }
{
    match reply {
        NodeReply::Meta(answer) => after_meta(delivery, answer),
        NodeReply::Chunk(reply) => after_server(delivery, &reply.answer),
    }
}
