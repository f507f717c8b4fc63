//! What a text is held against.

use qfs_base::script::{Script, ScriptCause};
use qfs_print::print;
use qfs_script::{ScriptError, cause_word, read};
use std::alloc::{AllocError, Global};

/// What is wanted of a text.
#[derive(Clone, Copy)]
pub enum Wanted<'a> {
    Script,
    /// A script whose text is the one that is printed.
    Same,
    Bad { line: u32, cause: &'a str },
}

/// What a text is.
#[derive(Drop)]
enum Found {
    Text(Vec<u8>),
    Bad { line: u32, cause: ScriptCause },
}

/// Reads a text, and prints the script again.
fn printed(alloc: Global, replays: bool, text: &[u8]) -> Result<Found, AllocError> {
    match read(alloc, replays, text) {
        Ok(script) => {
            let mut out = Vec::new(alloc);
            print(alloc, &script, &mut out)?;
            Ok(Found::Text(out))
        }
        Err(ScriptError::Bad { line, cause }) => Ok(Found::Bad { line, cause }),
        Err(ScriptError::NoMemory) => Err(AllocError),
    }
}

/// Whether a printed text is a script's that is printed so again.
fn is_printed_again(alloc: Global, replays: bool, text: &[u8]) -> Result<bool, AllocError> {
    match printed(alloc, replays, text)? {
        Found::Text(again) => Ok(again.as_slice() == text),
        Found::Bad { .. } => Ok(false),
    }
}

/// Whether a text is what is wanted of it.
pub fn holds(
    alloc: Global,
    replays: bool,
    wanted: Wanted<'_>,
    text: &[u8],
) -> Result<bool, AllocError> {
    match (wanted, printed(alloc, replays, text)?) {
        (Wanted::Script, Found::Text(out)) => is_printed_again(alloc, replays, out.as_slice()),
        (Wanted::Same, Found::Text(out)) => Ok(out.as_slice() == text),
        (
            Wanted::Bad { line, cause },
            Found::Bad {
                line: bad,
                cause: why,
            },
        ) => { Ok(line == bad && cause == cause_word(why)) }
        _ => Ok(false),
    }
}
