//! Words that spell paths.
ghost use Rattle.std.specs.Prelude.{◌≡◌};
ghost use Rattle.qfs_model_grammar.specs.Kinds.{path_in};
ghost use Rattle.qfs_lexer.specs.Tells.{Tells};

use crate::refusal::Refusal;
use qfs_base::path::{Path, path_from};
use qfs_base::script::ScriptCause;
use std::alloc::Global;

/// The path that a word spells: `/` alone, or 1 to 32 times a slash and a name of 1 to 255 bytes
/// from 0x21 to 0x7E without a slash, which is neither `.` nor `..`.
#[tactic(auto, using(crate::proofs::PathWords::path_spelled, crate::proofs::PathWords::no_path))]
pub fn path_in(alloc: Global, word: &[u8]) -> Result<Path, Refusal>
    ensures { Tells (path_in word.now) result }
{
    match path_from(alloc, word) {
        Ok(Some(path)) => Ok(path),
        Ok(None) => Err(Refusal::Bad(ScriptCause::Path)),
        Err(_) => Err(Refusal::NoMemory),
    }
}
