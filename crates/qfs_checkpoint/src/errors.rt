//! Why the disks of a metaserver aren't loaded.
ghost use Rattle.std.specs.Prelude.{◌≡◌};
ghost use Rattle.qfs_checkpoint.specs.declared.errors.LoadError.TheVariants as Refusal;
ghost use Rattle.qfs_checkpoint.specs.Causes.{of_device};

use qfs_device::DeviceError;
use std::alloc::{AllocError, AllocFailed};
use thiserror::Error;

/// Why the disks of a metaserver aren't loaded.
#[derive(Clone, Copy, Debug, PartialEq, Eq, Error)]
pub enum LoadError {
    /// A disk failed, and has one more fault in its count.
    #[error("a disk failed")]
    Fault,
    #[error("out of memory")]
    NoMemory,
    /// The newest checkpoint, or a record behind an open gate of its log, isn't one, at this offset
    /// of the left or the right disk.
    #[error("byte {offset} is no part of a checkpoint and its log")]
    BadLog { right: bool, offset: u64 },
}

impl From<DeviceError> for LoadError {
    ghost from_gives = { λ cause e. e ≡ of_device cause };

    fn from(cause: DeviceError) -> Self {
        match cause {
            DeviceError::Failed => LoadError::Fault,
            DeviceError::NoMemory => LoadError::NoMemory,
        }
    }
}

impl From<AllocError> for LoadError {
    ghost from_gives = { λ _ e. e ≡ Refusal.NoMemory };

    fn from(_: AllocError) -> Self {
        LoadError::NoMemory
    }
}

impl<T: Drop> From<AllocFailed<T>> for LoadError {
    ghost from_gives = { λ _ e. e ≡ Refusal.NoMemory };

    fn from(_: AllocFailed<T>) -> Self {
        LoadError::NoMemory
    }
}
