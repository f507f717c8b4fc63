//! The machine of a command.
#![tactic(auto, unfolding(crate::specs::CommandMachine::rest_of_machine, crate::specs::CommandMachine::readiness_of))]

ghost use Rattle.std.specs.Prelude.{◌≡◌, ◌≤◌, ℕ};
ghost use Rattle.qfs_machine.specs.Askable.{IsAskable};
ghost use Rattle.qfs_machine.specs.declared.machine.Readiness.{Readiness};
ghost use Rattle.qfs_model_actor.specs.Command.{work_of, file_work};
ghost use Rattle.qfs_actor.specs.Forms.{IsBuilt, IsBuiltFile};
ghost use Rattle.qfs_actor.specs.CommandMachine.{rest_of_machine, readiness_of};

use qfs_base::command::{Command, Excerpt, FileCommand, Reply};
use qfs_base::numbers::NodeId;
use qfs_base::reply::NodeReply;
use qfs_base::request::NodeRequest;
use qfs_base::rules::Rules;
use qfs_machine::Machine;
use qfs_reader::Reader;
use qfs_writer::Writer;
use std::alloc::{AllocError, Global};

/// A command at work.
#[derive(Drop)]
pub enum CommandMachine {
    Put(Writer),
    Get(Reader),
}

impl CommandMachine {
    /// Begins the actor's command of this number. Takes no memory.
    pub fn begin(alloc: Global, rules: Rules, number: u16, command: Command) -> CommandMachine
        requires tries { 1 ≤ rules.tries }
        requires built { IsBuilt command }
        ensures rest { rest_of_machine result ≡ work_of rules number command }
        ensures unready { readiness_of result ≡ Readiness.Unready }
    {
        match command {
            Command::File(command) => begin_file(alloc, rules, number, command),
            _ => unreachable!(),
        }
    }
}

/// Begins a command on a file.
fn begin_file(alloc: Global, rules: Rules, number: u16, command: FileCommand) -> CommandMachine
    requires tries { 1 ≤ rules.tries }
    requires built { IsBuiltFile command }
    ensures rest { rest_of_machine result ≡ file_work rules number command }
    ensures unready { readiness_of result ≡ Readiness.Unready }
{
    match command {
        FileCommand::Put(path, recipe) => {
            CommandMachine::Put(Writer::new(alloc, rules.layout, number, path, recipe))
        }
        FileCommand::Get(path, range) => {
            CommandMachine::Get(Reader::new(alloc, path, range, rules.layout, rules.tries))
        }
        _ => unreachable!(),
    }
}

impl Machine for CommandMachine {
    ghost rest = { rest_of_machine };

    ghost readiness = { readiness_of };

    ghost may_ask = { IsAskable };

    fn ready(&mut self) -> Result<(), AllocError> {
        match self {
            CommandMachine::Put(writer) => writer.ready(),
            CommandMachine::Get(reader) => reader.ready(),
        }
    }

    fn goes_to(&self) -> Option<NodeId> {
        match self {
            CommandMachine::Put(writer) => writer.goes_to(),
            CommandMachine::Get(reader) => reader.goes_to(),
        }
    }

    fn next(&mut self) -> Option<NodeRequest> {
        match self {
            CommandMachine::Put(writer) => writer.next(),
            CommandMachine::Get(reader) => reader.next(),
        }
    }

    fn took(&mut self, reply: NodeReply) {
        match self {
            CommandMachine::Put(writer) => writer.took(reply),
            CommandMachine::Get(reader) => reader.took(reply),
        }
    }

    fn into_reply(self) -> Reply<Excerpt> {
        match self {
            CommandMachine::Put(writer) => writer.into_reply(),
            CommandMachine::Get(reader) => reader.into_reply(),
        }
    }
}
