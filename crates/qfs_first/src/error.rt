//! Why a script isn't read.

use qfs_base::script::ScriptCause;
use std::alloc::AllocError;

/// Why a script isn't read.
#[derive(Clone, Copy, PartialEq, Eq)]
pub enum ScriptError {
    NoMemory,
    /// The first bad line, from 1, and what is wrong with it. Where the text ends too early the line
    /// is the number of lines plus one.
    Bad { line: u32, cause: ScriptCause },
}

impl From<AllocError> for ScriptError {
    ghost use Rattle.std.specs.Prelude.{◌≡◌};
    ghost use Rattle.qfs_first.specs.declared.error.ScriptError.TheVariants.{NoMemory};

    ghost from_gives = { λ _ error. error ≡ NoMemory };

    fn from(_: AllocError) -> ScriptError {
        ScriptError::NoMemory
    }
}
