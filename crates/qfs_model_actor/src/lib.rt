//! What each command of an actor asks the nodes and what it reports, as definitions, with examples
//! that show what they mean and the law that each command ends.
#![tactic(auto)]

ghost use Rattle.std.specs.Prelude.{◌≡◌, ℕ, ◌<◌, ◌≤◌, ◌^◌, ◌↔◌, List, Option, length, All, IsSome, IsTrue};
ghost use Rattle.qfs_base.specs.Shape.{Shape, IsStripe, IsRowCount};
ghost use Rattle.qfs_base.specs.declared.command.Command.{Command};
ghost use Rattle.qfs_base.specs.declared.command.Range.{Range};
ghost use Rattle.qfs_base.specs.declared.command.Reply.TheVariants as Report;
ghost use Rattle.qfs_base.specs.declared.lists.SlotCause.{SlotCause};
ghost use Rattle.qfs_base.specs.declared.reply.NodeReply.{NodeReply};
ghost use Rattle.qfs_base.specs.declared.reply.Opened.{Opened};
ghost use Rattle.qfs_base.specs.declared.request.MetaRequest.TheVariants as Ask;
ghost use Rattle.qfs_base.specs.declared.rules.Rules.{Rules};
ghost use Rattle.qfs_model_actor.specs.Actor.{Actor, starting, request_of, has_finished, after_reply};
ghost use Rattle.qfs_model_actor.specs.Command.{work_of};
ghost use Rattle.qfs_model_actor.specs.Ask.{ask};
ghost use Rattle.qfs_model_actor.specs.Examples.{FileIsPutAndRead, DegradedGet, TooFewAnswer, SecondOpening, ActorEnds};
ghost use Rattle.qfs_model_actor.specs.Get.{get_work, was_opened, range_of, reading_of};
ghost use Rattle.qfs_model_actor.specs.Hold.{nothing, opened, end_with};
ghost use Rattle.qfs_model_actor.specs.MoreExamples.{ServersFailAndChunksMove};
ghost use Rattle.qfs_model_actor.specs.Steps.{AsksAtMost, IsInRange, most_steps, left};
ghost use Rattle.qfs_model_actor.specs.Work.{ends};

/// Five bytes are put by 20 requests and read by 8. A get that finds two servers down reads two
/// parity slots in their place, and one that finds four down says so, or opens the file again where
/// it has an attempt left.
pub fn five_bytes_are_put_and_read()
    ensures put_and_read { FileIsPutAndRead }
    ensures degraded { DegradedGet }
    ensures too_few { TooFewAnswer }
    ensures second { SecondOpening }
    ensures actor { ActorEnds }
{}

/// What commands ask where servers fail, and where chunks are moved and swept.
pub fn failures_and_moves_go_so()
    ensures { ServersFailAndChunksMove }
{}

/// No command asks more requests than its bound, whatever the nodes answer.
pub fn commands_end()
    ensures { (rules : Rules) (number : ℕ) (command : Command)
        → AsksAtMost (most_steps rules command) (work_of rules number command) }
{}

/// A get with one try opens its file once: where a block has too few copies that can be read, it
/// gives its lease back and ends with the causes.
pub fn one_try_is_one_opening()
    ensures opens { (layout : Shape) (path : List (List ℕ)) (range : Option Range)
        → get_work layout 1 path range ≡ ask nothing (Ask.OpenFile path) (was_opened layout ends (range_of range)) }
    ensures too_few { (layout : Shape) (o : Opened) (from to k : ℕ) (causes : List SlotCause)
        → (reading_of layout ends o from to k).too_few causes ≡ end_with (opened o.lease) (Report.ReadTooFew o.place k causes) }
{}

/// The number of steps that an actor has left falls at each step, whatever the node answers, and is
/// 0 exactly where the actor has finished. An actor of a script starts below 2^56.
pub fn steps_left_fall()
    ensures falls { (actor : Actor) (reply : NodeReply)
        → IsSome (request_of actor) → left (after_reply actor reply) < left actor }
    ensures finished { (actor : Actor) → (left actor ≡ 0) ↔ IsTrue (has_finished actor) }
    ensures start { (rules : Rules) (number : ℕ) (commands : List Command)
        → IsStripe rules.layout.s → IsRowCount rules.layout.r → rules.tries < 2 ^ 19
        → length commands ≤ 4096 → All IsInRange commands
        → left (starting rules number commands) < 2 ^ 56 }
{}
