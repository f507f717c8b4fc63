//! The lines of an actor's commands: `put P hex H` and `get P`.
ghost use Rattle.std.specs.Prelude.{◌≡◌, None, MatchOption, IfOk, IfErr, OnOk, IsTrue, ◌↔◌, length, ◌<◌, ◌+◌};
ghost use Rattle.std.specs.Option.{option_map};
ghost use Rattle.hex.specs.declared.error.FromHexError.TheVariants.{OutOfMemory};
ghost use Rattle.qfs_base.specs.declared.recipe.Form.TheVariants.{Hex};
ghost use Rattle.qfs_first.specs.Commands.{one_name_path, hex_bytes, put_words, get_words, put_of, get_of, command_form};
ghost use Rattle.qfs_first.specs.Refusal.{TellsBadLine};
ghost use Rattle.qfs_first.specs.Script.{or_number, command_at, read_commands, first_command, most_commands};

use crate::error::ScriptError;
use crate::lines::{Lines, Words};
use hex::FromHexError;
use qfs_base::command::{Command, FileCommand};
use qfs_base::listing::Listing;
use qfs_base::path::{Path, path_from};
use qfs_base::recipe::{Form, Recipe};
use qfs_base::script::{Commands, ScriptCause};
use std::alloc::{AllocError, Global};

/// The number of the first command's line.
const FIRST_COMMAND: u32 = 6;

/// The most bytes that hexadecimal digits tell.
const MOST_HEX_BYTES: usize = 32;

/// The most commands of an actor.
const MOST_COMMANDS: u32 = 4096;

/// Whether the path stands right below the root.
fn has_one_name(path: &Path) -> bool
    ensures { IsTrue result ↔ (length path.now ≡ 1) }
{
    path.names.len() == 1
}

/// The path of exactly one name that a word spells.
fn one_name_path(alloc: Global, word: &[u8]) -> Result<Option<Path>, AllocError>
    ensures { IfOk result (λ found. found ≡ one_name_path word.now) }
{
    match path_from(alloc, word)? {
        Some(path) => {
            if has_one_name(&path) {
                Ok(Some(path))
            } else {
                Ok(None)
            }
        }
        None => Ok(None),
    }
}

/// Whether the error is want of memory.
fn is_no_memory(error: FromHexError) -> bool
    ensures { IsTrue result ↔ (error ≡ OutOfMemory) }
{
    matches!(error, FromHexError::OutOfMemory)
}

/// The recipe of the 1 to 32 bytes that a word tells by hexadecimal digits.
fn hex_recipe(alloc: Global, digits: &[u8]) -> Result<Option<Recipe>, AllocError>
    ensures { IfOk result (λ recipe. recipe ≡ option_map Hex (hex_bytes digits.now)) }
{
    // Two digits tell a byte, so the bytes of a long word needn't be made.
    if digits.is_empty() || digits.len() > 2 * MOST_HEX_BYTES {
        return Ok(None);
    }
    match hex::decode(alloc, digits) {
        Ok(bytes) => {
            let form = Form::Hex(Listing::from_vec(bytes));
            Ok(Some(Recipe { form }))
        }
        Err(error) => {
            if is_no_memory(error) {
                Err(AllocError)
            } else {
                Ok(None)
            }
        }
    }
}

/// The words of the path and of the digits behind the word `put`.
fn put_parts<'a>(words: &mut Words<'a>) -> Option<(&'a [u8], &'a [u8])>
    ensures { MatchOption result (put_words words.old ≡ None)
        (λ parts. put_words words.old ≡ put_of (one_name_path parts.0.now) (hex_bytes parts.1.now)) }
{
    let path = words.next_word()?;
    let kind = words.next_word()?;
    let digits = words.next_word()?;
    if words.is_done() && kind == b"hex".as_slice() {
        Some((path, digits))
    } else {
        None
    }
}

/// The word of the path behind the word `get`.
fn get_part<'a>(words: &mut Words<'a>) -> Option<&'a [u8]>
    ensures { MatchOption result (get_words words.old ≡ None)
        (λ path. get_words words.old ≡ get_of (one_name_path path.now)) }
{
    let path = words.next_word()?;
    if words.is_done() { Some(path) } else { None }
}

/// The put that the words behind the word `put` say.
fn put_command(alloc: Global, words: &mut Words<'_>) -> Result<Option<Command>, AllocError>
    ensures { IfOk result (λ said. said ≡ put_words words.old) }
{
    let Some((path, digits)) = put_parts(words) else {
        return Ok(None);
    };
    let Some(path) = one_name_path(alloc, path)? else {
        return Ok(None);
    };
    let Some(recipe) = hex_recipe(alloc, digits)? else {
        return Ok(None);
    };
    Ok(Some(Command::File(FileCommand::Put(path, recipe))))
}

/// The get that the words behind the word `get` say.
fn get_command(alloc: Global, words: &mut Words<'_>) -> Result<Option<Command>, AllocError>
    ensures { IfOk result (λ said. said ≡ get_words words.old) }
{
    let Some(path) = get_part(words) else {
        return Ok(None);
    };
    let Some(path) = one_name_path(alloc, path)? else {
        return Ok(None);
    };
    Ok(Some(Command::File(FileCommand::Get(path, None))))
}

/// The command that a line says. None says that the line is no command of the forms built so far.
#[tactic(auto, unfolding(crate::specs::Commands::command_form))]
fn command_of(alloc: Global, line: &[u8]) -> Result<Option<Command>, AllocError>
    ensures { IfOk result (λ said. said ≡ command_form line.now) }
{
    let mut words = Words::of(line);
    let Some(word) = words.next_word() else {
        return Ok(None);
    };
    if word == b"put".as_slice() {
        put_command(alloc, &mut words)
    } else if word == b"get".as_slice() {
        get_command(alloc, &mut words)
    } else {
        Ok(None)
    }
}

/// The command that the line of this number says, where an actor may have that many.
fn command_at(alloc: Global, number: u32, line: &[u8]) -> Result<Command, ScriptError>
    ensures ok { IfOk result (λ command. or_number number (command_at number line.now) ≡ Ok command) }
    ensures bad { IfErr result (TellsBadLine (or_number number (command_at number line.now))) }
    ensures room { OnOk result (number < first_command + most_commands) }
{
    let bad = ScriptError::Bad {
        line: number,
        cause: ScriptCause::NotYet,
    };
    if number >= FIRST_COMMAND + MOST_COMMANDS {
        return Err(bad);
    }
    match command_of(alloc, line)? {
        Some(command) => Ok(command),
        None => Err(bad),
    }
}

/// Reads the lines that are left as the commands of one actor.
pub fn read_commands(alloc: Global, lines: &mut Lines<'_>) -> Result<Commands, ScriptError>
    ensures ok { IfOk result (λ commands. read_commands first_command lines.old ≡ Ok commands) }
    ensures bad { IfErr result (TellsBadLine (read_commands first_command lines.old)) }
{
    let mut commands = Listing::new(alloc);
    let mut number = FIRST_COMMAND;
    while let Some(line) = lines.next_line() {
        commands.push(command_at(alloc, number, line)?)?;
        number += 1;
    }
    Ok(commands)
}
