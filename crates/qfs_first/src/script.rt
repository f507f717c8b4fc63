//! Reading a whole script.
ghost use Rattle.std.specs.Prelude.{◌≡◌, IfOk, IfErr};
ghost use Rattle.qfs_model_script.specs.InScript.{IsScript};
ghost use Rattle.qfs_first.specs.Lines.{text_lines};
ghost use Rattle.qfs_first.specs.Refusal.{TellsBadLine};
ghost use Rattle.qfs_first.specs.Script.{read_lines, script_of};

use crate::commands::read_commands;
use crate::error::ScriptError;
use crate::head::read_head;
use crate::lines::Lines;
use qfs_base::layout::Layout;
use qfs_base::listing::Listing;
use qfs_base::script::{Commands, Script, ScriptCause};
use std::alloc::{AllocError, Global};

/// The script of one phase, in which one actor has these commands.
fn one_actor(
    alloc: Global,
    layout: Layout,
    servers: u16,
    commands: Commands,
) -> Result<Script, AllocError>
    ensures { IfOk result (λ script. script ≡ script_of layout servers commands) }
{
    let mut phase = Listing::new(alloc);
    phase.push(commands)?;
    let mut phases = Listing::new(alloc);
    phases.push(phase)?;
    Ok(Script {
        layout,
        servers,
        term: 0,
        audit: false,
        phases,
        order: None,
    })
}

/// Reads a script, as `read` does.
#[tactic(auto, unfolding(crate::specs::Script::read_lines))]
fn read_forms(alloc: Global, bytes: &[u8]) -> Result<Script, ScriptError>
    ensures ok { IfOk result (λ script. read_lines (text_lines bytes.now) ≡ Ok script) }
    ensures bad { IfErr result (TellsBadLine (read_lines (text_lines bytes.now))) }
{
    let mut lines = Lines::of(bytes);
    let (layout, servers) = match read_head(&mut lines) {
        Ok(head) => head,
        Err(line) => {
            return Err(ScriptError::Bad {
                line,
                cause: ScriptCause::NotYet,
            });
        }
    };
    let commands = read_commands(alloc, &mut lines)?;
    Ok(one_actor(alloc, layout, servers, commands)?)
}

/// Reads a script. Its lines are, in this order, each with one blank between two words: `qfs 1`;
/// `layout S R` with stripes of S bytes, a power of two from 16 to 65,536, and chunks of at most R
/// rows, 1 to 1,024; `servers N`, 9 to 64; `phase`; `actor 1`; and up to 4,096 lines
/// `put P hex H` or `get P`, where P is a path of one name and H are 1 to 32 bytes as hexadecimal
/// digits. The last line may lack its line end.
///
/// The error tells the first line that is of another form. Other forms of scripts aren't built yet.
#[tactic(auto, using(crate::proofs::ScriptSaid::read_script_is))]
pub fn read(alloc: Global, bytes: &[u8]) -> Result<Script, ScriptError>
    ensures ok { IfOk result (λ script. read_lines (text_lines bytes.now) ≡ Ok script) }
    ensures bad { IfErr result (TellsBadLine (read_lines (text_lines bytes.now))) }
    ensures script { IfOk result IsScript }
{
    let script = read_forms(alloc, bytes)?;
    Ok(script)
}
