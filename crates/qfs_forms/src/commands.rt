//! The commands that lines say, by the words behind the first one.
ghost use Rattle.std.specs.Prelude.{◌≡◌, ◌≤◌, ◌<◌, IfOk, MatchResult};
ghost use Rattle.qfs_base.specs.declared.command.Command.TheVariants as Does;
ghost use Rattle.qfs_base.specs.declared.command.FileCommand.TheVariants as File;
ghost use Rattle.qfs_model_grammar.specs.CommandLines.{index_in, slot_in, server_in, budget_in, path_command, bare_command, budget_command, server_command, rename_command, recover_command, move_command, evacuate_command, hibernate_command, drop_command, command_of};
ghost use Rattle.qfs_lexer.specs.Tells.{Tells};
ghost use Rattle.qfs_words.specs.Meant.{command_meant};
ghost use Rattle.qfs_forms.specs.Only.{only_path, only_budget, only_server};

use crate::puts::{get_command, put_command};
use qfs_base::command::{Command, FileCommand};
use qfs_base::numbers::{ActorId, ServerId, Slot};
use qfs_base::path::Path;
use qfs_base::script::ScriptCause;
use qfs_lexer::{
    MOST_ACTORS, MOST_TICKS, Refusal, Words, four_words, no_word, number_in, one_word, path_in,
    three_words, two_words,
};
use qfs_words::CommandWord;
use std::alloc::Global;

/// The last index of a block.
const LAST_INDEX: u32 = 65_535;

/// The last slot of a block.
const LAST_SLOT: u32 = 8;

/// The most steps of a heal, rebalance, evacuation or sweep.
const MOST_BUDGET: u32 = 100_000;

/// The index of a block, 0 to 65,535.
#[tactic(auto, unfolding(qfs_model_grammar::specs::CommandLines::index_in))]
fn index_in(word: &[u8]) -> Result<u32, ScriptCause>
    ensures { result ≡ index_in word.now }
{
    number_in(0, LAST_INDEX, word)
}

/// A slot of a block, 0 to 8.
#[tactic(auto, unfolding(qfs_model_grammar::specs::CommandLines::slot_in))]
fn slot_in(word: &[u8]) -> Result<Slot, ScriptCause>
    ensures { result ≡ slot_in word.now }
{
    let slot = number_in(0, LAST_SLOT, word)?;
    Ok(slot as u8)
}

/// The number of a server, of which there are so many.
#[tactic(auto, unfolding(qfs_model_grammar::specs::CommandLines::server_in))]
fn server_in(servers: u16, word: &[u8]) -> Result<ServerId, ScriptCause>
    ensures { result ≡ server_in servers word.now }
{
    let server = number_in(1, u32::from(servers), word)?;
    Ok(server as u16)
}

/// How often a heal, rebalance, evacuation or sweep goes on at most: 1 to 100,000.
#[tactic(auto, unfolding(qfs_model_grammar::specs::CommandLines::budget_in))]
fn budget_in(word: &[u8]) -> Result<u32, ScriptCause>
    ensures { result ≡ budget_in word.now }
{
    number_in(1, MOST_BUDGET, word)
}

/// The path that is the only word.
fn only_path(alloc: Global, words: &mut Words<'_>) -> Result<Path, Refusal>
    ensures { Tells (only_path words.old) result }
{
    let word = one_word(words)?;
    path_in(alloc, word)
}

/// The budget that is the only word.
fn only_budget(words: &mut Words<'_>) -> Result<u32, ScriptCause>
    ensures { result ≡ only_budget words.old }
{
    let word = one_word(words)?;
    budget_in(word)
}

/// The server that is the only word.
fn only_server(servers: u16, words: &mut Words<'_>) -> Result<ServerId, ScriptCause>
    ensures { result ≡ only_server servers words.old }
{
    let word = one_word(words)?;
    server_in(servers, word)
}

/// Behind `rename`: the old path and the new one.
#[tactic(auto, unfolding(qfs_model_grammar::specs::CommandLines::rename_command))]
fn rename_command(alloc: Global, words: &mut Words<'_>) -> Result<Command, Refusal>
    ensures { Tells (rename_command words.old) result }
{
    let (from, to) = two_words(words)?;
    let from = path_in(alloc, from)?;
    let to = path_in(alloc, to)?;
    Ok(Command::File(FileCommand::Rename(from, to)))
}

/// Behind `recover`: a path, the index of a block and a slot.
#[tactic(auto, unfolding(qfs_model_grammar::specs::CommandLines::recover_command))]
fn recover_command(alloc: Global, words: &mut Words<'_>) -> Result<Command, Refusal>
    ensures { Tells (recover_command words.old) result }
{
    let (path, index, slot) = three_words(words)?;
    let path = path_in(alloc, path)?;
    let index = index_in(index)?;
    let slot = slot_in(slot)?;
    Ok(Command::Recover(path, index, slot))
}

/// Behind `move`: a path, the index of a block, a slot and a server.
#[tactic(auto, unfolding(qfs_model_grammar::specs::CommandLines::move_command))]
fn move_command(alloc: Global, servers: u16, words: &mut Words<'_>) -> Result<Command, Refusal>
    ensures { Tells (move_command servers words.old) result }
{
    let (path, index, slot, server) = four_words(words)?;
    let path = path_in(alloc, path)?;
    let index = index_in(index)?;
    let slot = slot_in(slot)?;
    let server = server_in(servers, server)?;
    Ok(Command::Move(path, index, slot, server))
}

/// Behind `evacuate`: a server and a budget.
#[tactic(auto, unfolding(qfs_model_grammar::specs::CommandLines::evacuate_command))]
fn evacuate_command(servers: u16, words: &mut Words<'_>) -> Result<Command, ScriptCause>
    ensures { result ≡ evacuate_command servers words.old }
{
    let (server, budget) = two_words(words)?;
    let server = server_in(servers, server)?;
    let budget = budget_in(budget)?;
    Ok(Command::Evacuate(server, budget))
}

/// Behind `hibernate`: a server and a number of ticks, 1 to 1,000.
#[tactic(auto, unfolding(qfs_model_grammar::specs::CommandLines::hibernate_command))]
fn hibernate_command(servers: u16, words: &mut Words<'_>) -> Result<Command, ScriptCause>
    ensures { result ≡ hibernate_command servers words.old }
{
    let (server, ticks) = two_words(words)?;
    let server = server_in(servers, server)?;
    let ticks = number_in(1, MOST_TICKS, ticks)?;
    Ok(Command::Hibernate(server, ticks))
}

/// Behind `drop`: the number of an actor, 1 to 64.
#[tactic(auto, unfolding(qfs_model_grammar::specs::CommandLines::drop_command))]
fn drop_command(words: &mut Words<'_>) -> Result<Command, ScriptCause>
    ensures { result ≡ drop_command words.old }
{
    let word = one_word(words)?;
    let actor = number_in(1, MOST_ACTORS, word)?;
    let actor = actor as u16;
    Ok(Command::Drop(actor))
}

/// Behind `mkdir`: a path.
#[tactic(auto, unfolding(qfs_model_grammar::specs::CommandLines::path_command))]
fn mkdir_command(alloc: Global, words: &mut Words<'_>) -> Result<Command, Refusal>
    ensures { Tells (path_command (λ path. Does.File (File.Mkdir path)) words.old) result }
{
    let path = only_path(alloc, words)?;
    Ok(Command::File(FileCommand::Mkdir(path)))
}

/// Behind `rmdir`: a path.
#[tactic(auto, unfolding(qfs_model_grammar::specs::CommandLines::path_command))]
fn rmdir_command(alloc: Global, words: &mut Words<'_>) -> Result<Command, Refusal>
    ensures { Tells (path_command (λ path. Does.File (File.Rmdir path)) words.old) result }
{
    let path = only_path(alloc, words)?;
    Ok(Command::File(FileCommand::Rmdir(path)))
}

/// Behind `remove`: a path.
#[tactic(auto, unfolding(qfs_model_grammar::specs::CommandLines::path_command))]
fn remove_command(alloc: Global, words: &mut Words<'_>) -> Result<Command, Refusal>
    ensures { Tells (path_command (λ path. Does.File (File.Remove path)) words.old) result }
{
    let path = only_path(alloc, words)?;
    Ok(Command::File(FileCommand::Remove(path)))
}

/// Behind `list`: a path.
#[tactic(auto, unfolding(qfs_model_grammar::specs::CommandLines::path_command))]
fn list_command(alloc: Global, words: &mut Words<'_>) -> Result<Command, Refusal>
    ensures { Tells (path_command (λ path. Does.File (File.List path)) words.old) result }
{
    let path = only_path(alloc, words)?;
    Ok(Command::File(FileCommand::List(path)))
}

/// Behind `heal`: a budget.
#[tactic(auto, unfolding(qfs_model_grammar::specs::CommandLines::budget_command))]
fn heal_command(words: &mut Words<'_>) -> Result<Command, ScriptCause>
    ensures { result ≡ budget_command (λ budget. Does.Heal budget) words.old }
{
    let budget = only_budget(words)?;
    Ok(Command::Heal(budget))
}

/// Behind `rebalance`: a budget.
#[tactic(auto, unfolding(qfs_model_grammar::specs::CommandLines::budget_command))]
fn rebalance_command(words: &mut Words<'_>) -> Result<Command, ScriptCause>
    ensures { result ≡ budget_command (λ budget. Does.Rebalance budget) words.old }
{
    let budget = only_budget(words)?;
    Ok(Command::Rebalance(budget))
}

/// Behind `sweep`: a budget.
#[tactic(auto, unfolding(qfs_model_grammar::specs::CommandLines::budget_command))]
fn sweep_command(words: &mut Words<'_>) -> Result<Command, ScriptCause>
    ensures { result ≡ budget_command (λ budget. Does.Sweep budget) words.old }
{
    let budget = only_budget(words)?;
    Ok(Command::Sweep(budget))
}

/// Behind `stop`: a server.
#[tactic(auto, unfolding(qfs_model_grammar::specs::CommandLines::server_command))]
fn stop_command(servers: u16, words: &mut Words<'_>) -> Result<Command, ScriptCause>
    ensures { result ≡ server_command servers (λ server. Does.Stop server) words.old }
{
    let server = only_server(servers, words)?;
    Ok(Command::Stop(server))
}

/// Behind `start`: a server.
#[tactic(auto, unfolding(qfs_model_grammar::specs::CommandLines::server_command))]
fn start_command(servers: u16, words: &mut Words<'_>) -> Result<Command, ScriptCause>
    ensures { result ≡ server_command servers (λ server. Does.Start server) words.old }
{
    let server = only_server(servers, words)?;
    Ok(Command::Start(server))
}

/// Behind `wipe`: a server.
#[tactic(auto, unfolding(qfs_model_grammar::specs::CommandLines::server_command))]
fn wipe_command(servers: u16, words: &mut Words<'_>) -> Result<Command, ScriptCause>
    ensures { result ≡ server_command servers (λ server. Does.Wipe server) words.old }
{
    let server = only_server(servers, words)?;
    Ok(Command::Wipe(server))
}

/// Behind `upgrade`: a server.
#[tactic(auto, unfolding(qfs_model_grammar::specs::CommandLines::server_command))]
fn upgrade_command(servers: u16, words: &mut Words<'_>) -> Result<Command, ScriptCause>
    ensures { result ≡ server_command servers (λ server. Does.Upgrade server) words.old }
{
    let server = only_server(servers, words)?;
    Ok(Command::Upgrade(server))
}

/// Behind `tick`: nothing.
#[tactic(auto, unfolding(qfs_model_grammar::specs::CommandLines::bare_command))]
fn tick_command(words: &mut Words<'_>) -> Result<Command, ScriptCause>
    ensures { result ≡ bare_command Does.Tick words.old }
{
    no_word(words)?;
    Ok(Command::Tick)
}

/// Behind `checkpoint`: nothing.
#[tactic(auto, unfolding(qfs_model_grammar::specs::CommandLines::bare_command))]
fn checkpoint_command(words: &mut Words<'_>) -> Result<Command, ScriptCause>
    ensures { result ≡ bare_command Does.Checkpoint words.old }
{
    no_word(words)?;
    Ok(Command::Checkpoint)
}

/// Behind `restart`: nothing.
#[tactic(auto, unfolding(qfs_model_grammar::specs::CommandLines::bare_command))]
fn restart_command(words: &mut Words<'_>) -> Result<Command, ScriptCause>
    ensures { result ≡ bare_command Does.Restart words.old }
{
    no_word(words)?;
    Ok(Command::Restart)
}

/// The command that a line says by the words behind its first one, in a script of so many servers.
#[tactic(auto, unfolding(qfs_model_grammar::specs::CommandLines::command_of, qfs_words::specs::Meant::command_meant))]
pub fn command_of(
    alloc: Global,
    servers: u16,
    word: CommandWord,
    words: &mut Words<'_>,
) -> Result<Command, Refusal>
    ensures { Tells (command_of servers (command_meant word) words.old) result }
{
    let command = match word {
        CommandWord::Mkdir => return mkdir_command(alloc, words),
        CommandWord::Rmdir => return rmdir_command(alloc, words),
        CommandWord::Remove => return remove_command(alloc, words),
        CommandWord::Rename => return rename_command(alloc, words),
        CommandWord::List => return list_command(alloc, words),
        CommandWord::Put => return put_command(alloc, words),
        CommandWord::Get => return get_command(alloc, words),
        CommandWord::Recover => return recover_command(alloc, words),
        CommandWord::Move => return move_command(alloc, servers, words),
        CommandWord::Heal => heal_command(words)?,
        CommandWord::Rebalance => rebalance_command(words)?,
        CommandWord::Evacuate => evacuate_command(servers, words)?,
        CommandWord::Sweep => sweep_command(words)?,
        CommandWord::Stop => stop_command(servers, words)?,
        CommandWord::Start => start_command(servers, words)?,
        CommandWord::Wipe => wipe_command(servers, words)?,
        CommandWord::Hibernate => hibernate_command(servers, words)?,
        CommandWord::Upgrade => upgrade_command(servers, words)?,
        CommandWord::Tick => tick_command(words)?,
        CommandWord::Drop => drop_command(words)?,
        CommandWord::Checkpoint => checkpoint_command(words)?,
        CommandWord::Restart => restart_command(words)?,
    };
    Ok(command)
}
