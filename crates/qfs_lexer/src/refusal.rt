//! Why a word or a line isn't read.

use qfs_base::script::ScriptCause;
use std::alloc::AllocError;

/// Why a word or a line isn't read.
#[derive(Clone, Copy, PartialEq, Eq)]
pub enum Refusal {
    NoMemory,
    /// The word or line is bad, and this is wrong with it.
    Bad(ScriptCause),
}

impl From<AllocError> for Refusal {
    ghost use Rattle.std.specs.Prelude.{◌≡◌};
    ghost use Rattle.qfs_lexer.specs.declared.refusal.Refusal.TheVariants.{NoMemory};

    ghost from_gives = { λ _ refusal. refusal ≡ NoMemory };

    fn from(_: AllocError) -> Refusal {
        Refusal::NoMemory
    }
}

impl From<ScriptCause> for Refusal {
    ghost use Rattle.std.specs.Prelude.{◌≡◌};
    ghost use Rattle.qfs_lexer.specs.declared.refusal.Refusal.TheVariants.{Bad};

    ghost from_gives = { λ cause refusal. refusal ≡ Bad cause };

    fn from(cause: ScriptCause) -> Refusal {
        Refusal::Bad(cause)
    }
}
