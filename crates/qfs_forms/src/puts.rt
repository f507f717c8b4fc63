//! The lines of puts and gets.
ghost use Rattle.std.specs.Prelude.{◌≡◌, ◌∷◌, [], ◌≤◌, ◌<◌, ◌^◌, length, slice_index, IfOk, MatchResult};
ghost use Rattle.qfs_base.specs.declared.script.ScriptCause.TheVariants.{Count};
ghost use Rattle.qfs_model_grammar.specs.CommandLines.{hex_put, fill_put, pattern_put, put_command, get_whole, get_range, get_command, len_in};
ghost use Rattle.qfs_lexer.specs.Tells.{Tells};

use qfs_base::command::{Command, FileCommand, Range};
use qfs_base::recipe::{Form, Recipe};
use qfs_base::script::ScriptCause;
use qfs_base::sizes::MOST_FILE_BYTES;
use qfs_lexer::{Refusal, Words, bytes_in, number_in, one_word, path_in, two_words};
use std::alloc::Global;

/// The most bytes that hexadecimal digits tell.
const MOST_HEX_BYTES: usize = 32;

/// The last number of 32 bits.
const LAST_START: u32 = 4_294_967_295;

/// A number of bytes of a file, 0 to 268,435,456.
#[tactic(auto, unfolding(qfs_model_grammar::specs::CommandLines::len_in))]
fn len_in(word: &[u8]) -> Result<u32, ScriptCause>
    ensures value { result ≡ len_in word.now }
    ensures within { IfOk result (λ len. len ≤ 268435456) }
{
    number_in(0, MOST_FILE_BYTES, word)
}

/// Behind `put P hex`: the 1 to 32 bytes in hexadecimal digits.
#[tactic(auto, unfolding(qfs_model_grammar::specs::CommandLines::hex_put))]
fn hex_put(alloc: Global, path: &[u8], words: &mut Words<'_>) -> Result<Command, Refusal>
    ensures { Tells (hex_put path.now words.old) result }
{
    let digits = one_word(words)?;
    let path = path_in(alloc, path)?;
    let bytes = bytes_in(alloc, 1, MOST_HEX_BYTES, digits)?;
    let form = Form::Hex(bytes);
    Ok(Command::File(FileCommand::Put(path, Recipe { form })))
}

/// Behind `put P fill`: a byte in two hexadecimal digits, and how often it stands.
#[tactic(auto, unfolding(qfs_model_grammar::specs::CommandLines::fill_put))]
fn fill_put(alloc: Global, path: &[u8], words: &mut Words<'_>) -> Result<Command, Refusal>
    ensures { Tells (fill_put path.now words.old) result }
{
    let (digits, len) = two_words(words)?;
    let path = path_in(alloc, path)?;
    let bytes = bytes_in(alloc, 1, 1, digits)?;
    let len = len_in(len)?;
    let byte = bytes.as_slice()[0];
    let form = Form::Fill { byte, len };
    Ok(Command::File(FileCommand::Put(path, Recipe { form })))
}

/// Behind `put P pattern`: where the pattern starts, and how many bytes it has.
#[tactic(auto, unfolding(qfs_model_grammar::specs::CommandLines::pattern_put))]
fn pattern_put(alloc: Global, path: &[u8], words: &mut Words<'_>) -> Result<Command, Refusal>
    ensures { Tells (pattern_put path.now words.old) result }
{
    let (start, len) = two_words(words)?;
    let path = path_in(alloc, path)?;
    let start = number_in(0, LAST_START, start)?;
    let len = len_in(len)?;
    let form = Form::Pattern { start, len };
    Ok(Command::File(FileCommand::Put(path, Recipe { form })))
}

/// The put of this path and of a recipe of this kind.
#[tactic(auto, unfolding(qfs_model_grammar::specs::CommandLines::put_command))]
fn put_of_kind(
    alloc: Global,
    path: &[u8],
    kind: &[u8],
    words: &mut Words<'_>,
) -> Result<Command, Refusal>
    ensures { Tells (put_command (path.now ∷ kind.now ∷ words.old)) result }
{
    if kind == b"hex".as_slice() {
        hex_put(alloc, path, words)
    } else if kind == b"fill".as_slice() {
        fill_put(alloc, path, words)
    } else if kind == b"pattern".as_slice() {
        pattern_put(alloc, path, words)
    } else {
        Err(Refusal::Bad(ScriptCause::Word))
    }
}

/// Behind `put`: `P hex H`, `P fill BB LEN` or `P pattern START LEN`. A kind of recipe that is
/// unknown is a bad word, however many words there are.
#[tactic(auto, unfolding(qfs_model_grammar::specs::CommandLines::put_command))]
pub fn put_command(alloc: Global, words: &mut Words<'_>) -> Result<Command, Refusal>
    ensures { Tells (put_command words.old) result }
{
    let Some(path) = words.next_word() else {
        return Err(Refusal::Bad(ScriptCause::Count));
    };
    let Some(kind) = words.next_word() else {
        return Err(Refusal::Bad(ScriptCause::Count));
    };
    put_of_kind(alloc, path, kind, words)
}

/// The get of a whole file.
#[tactic(auto, unfolding(qfs_model_grammar::specs::CommandLines::get_whole))]
fn get_whole(alloc: Global, path: &[u8]) -> Result<Command, Refusal>
    ensures { Tells (get_whole path.now) result }
{
    let path = path_in(alloc, path)?;
    Ok(Command::File(FileCommand::Get(path, None)))
}

/// The get of a range of a file.
#[tactic(auto, unfolding(qfs_model_grammar::specs::CommandLines::get_range))]
fn get_range(alloc: Global, path: &[u8], from: &[u8], count: &[u8]) -> Result<Command, Refusal>
    ensures { Tells (get_range path.now from.now count.now) result }
{
    let path = path_in(alloc, path)?;
    let from = len_in(from)?;
    let count = len_in(count)?;
    let range = Some(Range { from, count });
    Ok(Command::File(FileCommand::Get(path, range)))
}

/// Behind `get`: `P` or `P FROM COUNT`.
#[tactic(auto, unfolding(qfs_model_grammar::specs::CommandLines::get_command))]
pub fn get_command(alloc: Global, words: &mut Words<'_>) -> Result<Command, Refusal>
    ensures { Tells (get_command words.old) result }
{
    let Some(path) = words.next_word() else {
        return Err(Refusal::Bad(ScriptCause::Count));
    };
    let Some(from) = words.next_word() else {
        return get_whole(alloc, path);
    };
    match one_word(words) {
        Ok(count) => get_range(alloc, path, from, count),
        Err(cause) => Err(Refusal::Bad(cause)),
    }
}
