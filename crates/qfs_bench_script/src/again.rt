//! Scripts that are printed and read again.

ghost use Rattle.std.specs.Prelude.{◌≤◌, length};
ghost use Rattle.qfs_model_script.specs.InScript.{actors_of};
ghost use Rattle.qfs_model_script.specs.Limits.{MOST_ACTORS};

use qfs_base::script::Script;
use qfs_print::print;
use qfs_script::{ScriptError, read};
use std::alloc::{AllocError, Global};
use std::io;
use std::rt::Runtime;

/// Reads a script, prints it and reads that again, and says whether it came back the same.
pub fn show_again<R: Runtime>(rt: &R, alloc: Global, name: &str, text: &[u8]) -> io::Result<()> {
    match read(alloc, false, text) {
        Err(error) => println!(rt; "{name}: {error}"),
        Ok(script) => show_printed(rt, alloc, name, text, &script),
    }
}

/// The same for the script that was read from a text.
fn show_printed<R: Runtime>(
    rt: &R,
    alloc: Global,
    name: &str,
    text: &[u8],
    script: &Script,
) -> io::Result<()>
    requires few { length (actors_of script.now) ≤ MOST_ACTORS }
{
    let printed = text_of(alloc, script)?;
    let as_given = if printed.as_slice() == text {
        "printed as given"
    } else {
        "printed in other bytes"
    };
    match again(alloc, script, printed.as_slice()) {
        Ok(true) => println!(rt; "{name}: same, {as_given}"),
        Ok(false) => println!(rt; "{name}: other, {as_given}"),
        Err(error) => println!(rt; "{name}: printed and refused, {error}"),
    }
}

/// The text that a script is printed as.
fn text_of(alloc: Global, script: &Script) -> Result<Vec<u8>, AllocError>
    requires few { length (actors_of script.now) ≤ MOST_ACTORS }
{
    let mut text = Vec::new(alloc);
    print(alloc, script, &mut text)?;
    Ok(text)
}

/// Whether a script's text is read to one with the same head, as many phases and the same text.
fn again(alloc: Global, script: &Script, printed: &[u8]) -> Result<bool, ScriptError> {
    let other = read(alloc, false, printed)?;
    let Ok(text) = text_of(alloc, &other) else {
        return Err(ScriptError::NoMemory);
    };
    Ok(has_same_head(script, &other) && text.as_slice() == printed)
}

/// Whether two scripts differ in nothing before their phases, and in how many these are.
fn has_same_head(script: &Script, other: &Script) -> bool {
    script.layout == other.layout
        && script.servers == other.servers
        && script.term == other.term
        && script.audit == other.audit
        && script.phases.len() == other.phases.len()
        && script.order.is_some() == other.order.is_some()
}
