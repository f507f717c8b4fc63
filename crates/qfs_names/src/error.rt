//! Why a call on the tree isn't done.
ghost use Rattle.std.specs.Prelude.{◌≡◌};
ghost use Rattle.qfs_names.specs.declared.error.TreeError.TheVariants as Told;

use qfs_base::reply::TreeRefusal;
use std::alloc::AllocError;
use std::fmt;
use thiserror::Error;

/// Why a call on the tree isn't done: the tree is as it was.
#[derive(Clone, Copy, PartialEq, Eq, Error)]
pub enum TreeError {
    /// The rules of the tree refuse it.
    #[error("the name tree refuses it")]
    Refused(TreeRefusal),
    /// There was no memory.
    #[error("out of memory")]
    NoMemory,
}

impl fmt::Debug for TreeError {
    fn fmt<W: fmt::Write>(&self, f: &mut fmt::Formatter<W>) -> fmt::Result {
        write!(f, "{self}")
    }
}

impl From<AllocError> for TreeError {
    ghost from_gives = { λ _ e. e ≡ Told.NoMemory };

    fn from(_: AllocError) -> Self {
        TreeError::NoMemory
    }
}
