//! The commands of a script. Only puts say bytes.

ghost use Rattle.std.specs.Prelude.{◌≤◌, IfOk};

use crate::digits::bytes_of;
use crate::words::{Bad, cut, number};
use qfs_base::command::{Command, FileCommand};
use qfs_base::listing::Listing;
use qfs_base::path::Path;
use qfs_base::recipe::{Form, Recipe};
use qfs_base::sizes::MOST_FILE_BYTES;
use std::alloc::Global;

/// The most bytes that hexadecimal digits tell.
const MOST_HEX_BYTES: usize = 32;

/// The command of these words: `tick`, or the recipe of a put. Its path tells nothing here: it is
/// that of the root.
pub fn command_of(alloc: Global, text: &str) -> Result<Command, Bad> {
    if text == "tick" {
        return Ok(Command::Tick);
    }
    let recipe = recipe_of(alloc, text)?;
    let names = Listing::new(alloc);
    Ok(Command::File(FileCommand::Put(Path { names }, recipe)))
}

/// The recipe of these words, as scripts write it.
pub fn recipe_of(alloc: Global, text: &str) -> Result<Recipe, Bad> {
    let (word, rest) = cut(text);
    match word {
        "hex" => hex(alloc, rest),
        "fill" => fill(rest),
        "pattern" => pattern(rest),
        _ => Err(Bad::Row),
    }
}

fn hex(alloc: Global, text: &str) -> Result<Recipe, Bad> {
    let bytes = Listing::from_vec(bytes_of(alloc, text)?);
    if bytes.is_empty() || bytes.len() > MOST_HEX_BYTES {
        return Err(Bad::Row);
    }
    let form = Form::Hex(bytes);
    Ok(Recipe { form })
}

fn fill(text: &str) -> Result<Recipe, Bad> {
    let (digits, len) = cut(text);
    let Ok(byte) = u8::from_str_radix(digits, 16) else {
        return Err(Bad::Row);
    };
    let len = length(len)?;
    let form = Form::Fill { byte, len };
    Ok(Recipe { form })
}

fn pattern(text: &str) -> Result<Recipe, Bad> {
    let (start, len) = cut(text);
    let start = number(start)?;
    let len = length(len)?;
    let form = Form::Pattern { start, len };
    Ok(Recipe { form })
}

/// A number of bytes of a file.
fn length(word: &str) -> Result<u32, Bad>
    ensures { IfOk result (λ len. len ≤ 268435456) }
{
    let len = number(word)?;
    if len > MOST_FILE_BYTES {
        return Err(Bad::Row);
    }
    Ok(len)
}
