//! The lines of commands. On want of memory `out` holds a part of what was to be appended.
#![tactic(auto, unfolding(qfs_model_script::specs::ScriptText::recipe_words, qfs_model_script::specs::ScriptText::range_words, qfs_model_script::specs::ScriptText::file_command_line, qfs_model_script::specs::ScriptText::command_line))]

ghost use Rattle.std.specs.Prelude.{◌≡◌, ◌++◌, ◌∷◌, [], decimal, OnOk};
ghost use Rattle.qfs_base.specs.Path.{path_text};
ghost use Rattle.qfs_base.specs.declared.command.Command.TheVariants as Does;
ghost use Rattle.qfs_model_script.specs.ScriptText.{recipe_words, range_words, file_command_line, command_line};
ghost use Rattle.qfs_model_text.specs.Line.{line, more_words};
ghost use Rattle.qfs_print.specs.Texts.{commands_text};

use qfs_base::command::{Command, FileCommand, Range};
use qfs_base::numbers::{ServerId, Slot};
use qfs_base::path::Path;
use qfs_base::recipe::{Form, Recipe};
use qfs_lines::words::{end_line, push_hex, push_number, push_path, push_word};
use std::alloc::{AllocError, Global};

/// Appends the words for the bytes of a put.
fn push_recipe(alloc: Global, out: &mut Vec<u8>, recipe: &Recipe) -> Result<(), AllocError>
    ensures { OnOk result (out.new.items ≡ out.old.items ++ more_words (recipe_words recipe.now)) }
{
    match &recipe.form {
        Form::Hex(bytes) => {
            push_word(out, b"hex")?;
            push_hex(alloc, out, bytes.as_slice())
        }
        Form::Fill { byte, len } => {
            push_word(out, b"fill")?;
            push_hex(alloc, out, &[*byte])?;
            push_number(out, u64::from(*len))
        }
        Form::Pattern { start, len } => {
            push_word(out, b"pattern")?;
            push_number(out, u64::from(*start))?;
            push_number(out, u64::from(*len))
        }
    }
}

/// Appends the words for the range of a get, if it has one.
fn push_range(out: &mut Vec<u8>, range: Option<Range>) -> Result<(), AllocError>
    ensures { OnOk result (out.new.items ≡ out.old.items ++ more_words (range_words range)) }
{
    match range {
        None => Ok(()),
        Some(range) => {
            push_number(out, u64::from(range.from))?;
            push_number(out, u64::from(range.count))
        }
    }
}

/// Appends a line of a first word alone.
pub fn push_bare(out: &mut Vec<u8>, word: &[u8]) -> Result<(), AllocError>
    ensures { OnOk result (out.new.items ≡ out.old.items ++ line word.now []) }
{
    out.extend_from_slice(word)?;
    end_line(out)
}

/// Appends a line of a first word and a number.
pub fn push_numbered(out: &mut Vec<u8>, word: &[u8], number: u32) -> Result<(), AllocError>
    ensures { OnOk result (out.new.items ≡ out.old.items ++ line word.now (decimal number ∷ [])) }
{
    out.extend_from_slice(word)?;
    push_number(out, u64::from(number))?;
    end_line(out)
}

/// Appends a line of a first word and two numbers.
pub fn push_pair(out: &mut Vec<u8>, word: &[u8], first: u32, second: u32) -> Result<(), AllocError>
    ensures { OnOk result (out.new.items
        ≡ out.old.items ++ line word.now (decimal first ∷ decimal second ∷ [])) }
{
    out.extend_from_slice(word)?;
    push_number(out, u64::from(first))?;
    push_number(out, u64::from(second))?;
    end_line(out)
}

/// Appends a line of a first word and a path.
fn push_on_path(out: &mut Vec<u8>, word: &[u8], path: &Path) -> Result<(), AllocError>
    ensures { OnOk result (out.new.items ≡ out.old.items ++ line word.now (path_text path.now ∷ [])) }
{
    out.extend_from_slice(word)?;
    push_path(out, path)?;
    end_line(out)
}

/// Appends the line of a command on the name tree or on a file's bytes.
fn push_file_command(
    alloc: Global,
    out: &mut Vec<u8>,
    command: &FileCommand,
) -> Result<(), AllocError>
    ensures { OnOk result (out.new.items ≡ out.old.items ++ file_command_line command.now) }
{
    match command {
        FileCommand::Mkdir(path) => push_on_path(out, b"mkdir", path),
        FileCommand::Rmdir(path) => push_on_path(out, b"rmdir", path),
        FileCommand::Remove(path) => push_on_path(out, b"remove", path),
        FileCommand::Rename(from, to) => {
            out.extend_from_slice(b"rename")?;
            push_path(out, from)?;
            push_path(out, to)?;
            end_line(out)
        }
        FileCommand::List(path) => push_on_path(out, b"list", path),
        FileCommand::Put(path, recipe) => {
            out.extend_from_slice(b"put")?;
            push_path(out, path)?;
            push_recipe(alloc, out, recipe)?;
            end_line(out)
        }
        FileCommand::Get(path, range) => {
            out.extend_from_slice(b"get")?;
            push_path(out, path)?;
            push_range(out, *range)?;
            end_line(out)
        }
    }
}

/// Appends the line of a recovery.
fn push_recover(out: &mut Vec<u8>, path: &Path, index: u32, slot: Slot) -> Result<(), AllocError>
    ensures { OnOk result (out.new.items
        ≡ out.old.items ++ command_line (Does.Recover path.now index slot)) }
{
    out.extend_from_slice(b"recover")?;
    push_path(out, path)?;
    push_number(out, u64::from(index))?;
    push_number(out, u64::from(slot))?;
    end_line(out)
}

/// Appends the line of a move.
fn push_move(
    out: &mut Vec<u8>,
    path: &Path,
    index: u32,
    slot: Slot,
    server: ServerId,
) -> Result<(), AllocError>
    ensures { OnOk result (out.new.items
        ≡ out.old.items ++ command_line (Does.Move path.now index slot server)) }
{
    out.extend_from_slice(b"move")?;
    push_path(out, path)?;
    push_number(out, u64::from(index))?;
    push_number(out, u64::from(slot))?;
    push_number(out, u64::from(server))?;
    end_line(out)
}

/// Appends the line of a command.
pub fn push_command(alloc: Global, out: &mut Vec<u8>, command: &Command) -> Result<(), AllocError>
    ensures { OnOk result (out.new.items ≡ out.old.items ++ command_line command.now) }
{
    match command {
        Command::File(command) => push_file_command(alloc, out, command),
        Command::Recover(path, index, slot) => push_recover(out, path, *index, *slot),
        Command::Move(path, index, slot, server) => push_move(out, path, *index, *slot, *server),
        Command::Heal(budget) => push_numbered(out, b"heal", *budget),
        Command::Rebalance(budget) => push_numbered(out, b"rebalance", *budget),
        Command::Evacuate(server, budget) => {
            push_pair(out, b"evacuate", u32::from(*server), *budget)
        }
        Command::Sweep(budget) => push_numbered(out, b"sweep", *budget),
        Command::Stop(server) => push_numbered(out, b"stop", u32::from(*server)),
        Command::Start(server) => push_numbered(out, b"start", u32::from(*server)),
        Command::Wipe(server) => push_numbered(out, b"wipe", u32::from(*server)),
        Command::Hibernate(server, ticks) => {
            push_pair(out, b"hibernate", u32::from(*server), *ticks)
        }
        Command::Upgrade(server) => push_numbered(out, b"upgrade", u32::from(*server)),
        Command::Tick => push_bare(out, b"tick"),
        Command::Drop(actor) => push_numbered(out, b"drop", u32::from(*actor)),
        Command::Checkpoint => push_bare(out, b"checkpoint"),
        Command::Restart => push_bare(out, b"restart"),
    }
}

/// Appends the lines of commands, one behind another.
pub fn push_commands(
    alloc: Global,
    out: &mut Vec<u8>,
    commands: &[Command],
) -> Result<(), AllocError>
    ensures { OnOk result (out.new.items ≡ out.old.items ++ commands_text commands.now) }
{
    for command in commands {
        push_command(alloc, out, command)?;
    }
    Ok(())
}
