//! How a command of one request ends.
#![tactic(auto, unfolding(crate::specs::Simple::report_of_simple, crate::specs::Simple::after_simple, qfs_model_actor::specs::Shown::shown_reply, qfs_model_actor::specs::Tree::changed, qfs_model_actor::specs::Tree::listed, qfs_model_actor::specs::Tree::refused, qfs_model_actor::specs::System::ticked, qfs_model_actor::specs::System::dropped, qfs_model_actor::specs::System::saved, qfs_model_actor::specs::System::restarted, qfs_machine::specs::Endings::report_of_ending))]

ghost use Rattle.std.specs.Prelude.{◌≡◌};
ghost use Rattle.qfs_model_actor.specs.Shown.{kept_report};
ghost use Rattle.qfs_base.specs.declared.command.Reply.TheVariants as Report;
ghost use Rattle.qfs_model_actor.specs.Tree.{changed, listed, refused};
ghost use Rattle.qfs_model_actor.specs.Work.{ends};
ghost use Rattle.qfs_commands.specs.Simple.{after_simple, report_of_simple, IsOfSystem};

use crate::simple::SimpleCommand;
use qfs_base::command::{Excerpt, Reply};
use qfs_base::lists::Names;
use qfs_base::numbers::{Place, Turn};
use qfs_base::reply::{MetaReply, TreeRefusal};
use qfs_machine::Ending;

/// How a command of one request ends.
#[derive(Drop)]
pub enum SimpleEnding {
    /// The name tree was changed; the file history has so many entries behind it.
    Done { place: Place },
    Listed { place: Place, names: Names },
    /// The name tree refused the change.
    Refused { place: Place, refusal: TreeRefusal },
    Clock { now: u64 },
    DropDone,
    Saved { turn: Turn },
    Restarted { turn: Turn },
    /// It ends as any command may.
    Common(Ending),
}

impl SimpleEnding {
    /// The reply of a command that ends so, as it is kept. Takes no memory.
    pub fn into_reply(self) -> Reply<Excerpt>
        ensures { result ≡ kept_report (report_of_simple self) }
    {
        match self {
            SimpleEnding::Done { place } => Reply::Done { place },
            SimpleEnding::Listed { place, names } => Reply::Listed { place, names },
            SimpleEnding::Refused { place, refusal } => Reply::Refused { place, refusal },
            SimpleEnding::Clock { now } => Reply::Clock { now },
            SimpleEnding::DropDone => Reply::DropDone,
            SimpleEnding::Saved { turn } => Reply::Saved { turn },
            SimpleEnding::Restarted { turn } => Reply::Restarted { turn },
            SimpleEnding::Common(ending) => ending.into_reply(),
        }
    }
}

/// A node answered something that its request doesn't allow.
fn unnamed() -> SimpleEnding
    ensures { report_of_simple result ≡ Report.Unnamed }
{
    SimpleEnding::Common(Ending::Unnamed)
}

/// How a command on the name tree ends at an answer other than the one that it wants.
fn refused(answer: MetaReply) -> SimpleEnding
    ensures { ends (report_of_simple result) ≡ refused answer }
{
    match answer {
        MetaReply::Refused { refusal, place } => SimpleEnding::Refused { place, refusal },
        _ => unnamed(),
    }
}

/// How a change of the name tree ends.
fn changed(answer: MetaReply) -> SimpleEnding
    ensures { ends (report_of_simple result) ≡ changed answer }
{
    match answer {
        MetaReply::Done { place } => SimpleEnding::Done { place },
        answer => refused(answer),
    }
}

/// How a list of names ends.
fn listed(answer: MetaReply) -> SimpleEnding
    ensures { ends (report_of_simple result) ≡ listed answer }
{
    match answer {
        MetaReply::Names { place, names } => SimpleEnding::Listed { place, names },
        answer => refused(answer),
    }
}

/// How a command on the metaserver as a whole ends.
fn system_ending(command: &SimpleCommand, answer: MetaReply) -> SimpleEnding
    requires { IsOfSystem command.now }
    ensures { ends (report_of_simple result) ≡ after_simple command.now answer }
{
    match (command, answer) {
        (SimpleCommand::Tick, MetaReply::Clock { now }) => SimpleEnding::Clock { now },
        (SimpleCommand::Drop(_), MetaReply::Done { .. }) => SimpleEnding::DropDone,
        (SimpleCommand::Checkpoint, MetaReply::Saved { turn }) => SimpleEnding::Saved { turn },
        (SimpleCommand::Restart, MetaReply::Restarted { turn }) => {
            SimpleEnding::Restarted { turn }
        }
        _ => unnamed(),
    }
}

/// How a command ends at an answer that doesn't end every command.
pub fn ending_after(command: &SimpleCommand, answer: MetaReply) -> SimpleEnding
    ensures { ends (report_of_simple result) ≡ after_simple command.now answer }
{
    match command {
        SimpleCommand::Mkdir(_)
        | SimpleCommand::Rmdir(_)
        | SimpleCommand::Remove(_)
        | SimpleCommand::Rename(..) => changed(answer),
        SimpleCommand::List(_) => listed(answer),
        _ => system_ending(command, answer),
    }
}
