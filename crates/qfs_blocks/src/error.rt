//! Why a call on blocks isn't done.
ghost use Rattle.std.specs.Prelude.{◌≡◌};
ghost use Rattle.qfs_blocks.specs.declared.error.BlockError.TheVariants as Told;

use qfs_base::numbers::Version;
use std::alloc::AllocError;
use std::fmt;
use thiserror::Error;

/// Why a call on blocks isn't done: they are as they were.
#[derive(Clone, Copy, PartialEq, Eq, Error)]
pub enum BlockError {
    /// A grant is pending, of this version.
    #[error("a grant is pending")]
    Taken {
        version: Version,
    },
    /// No slot of the block has a record.
    #[error("the block isn't there")]
    Gone,
    /// The pending version isn't the one that was given, or there is none.
    #[error("another version is pending")]
    Stale {
        held: Option<Version>,
        given: Version,
    },
    /// There was no memory.
    #[error("out of memory")]
    NoMemory,
}

impl fmt::Debug for BlockError {
    fn fmt<W: fmt::Write>(&self, f: &mut fmt::Formatter<W>) -> fmt::Result {
        write!(f, "{self}")
    }
}

impl From<AllocError> for BlockError {
    ghost from_gives = { λ _ e. e ≡ Told.NoMemory };

    fn from(_: AllocError) -> Self {
        BlockError::NoMemory
    }
}
