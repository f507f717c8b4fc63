//! Why a call to the outside did not succeed.
ghost use Rattle.std.specs.Prelude.{◌≡◌};
ghost use Rattle.qfs_device.specs.declared.errors.DeviceError.TheVariants as Refusal;

use std::alloc::{AllocError, AllocFailed};
use thiserror::Error;

/// Why a device or a disk did not do what it was asked.
#[derive(Clone, Copy, Debug, PartialEq, Eq, Error)]
pub enum DeviceError {
    /// It failed, and has one more fault in its count.
    #[error("a device failed")]
    Failed,
    /// It found no memory, and changed nothing.
    #[error("out of memory")]
    NoMemory,
}

/// A source or a sink failed, and has one more fault in its count.
#[derive(Clone, Copy, Debug, PartialEq, Eq, Error)]
#[error("a stream failed")]
pub struct Failed;

impl From<Failed> for DeviceError {
    ghost from_gives = { λ _ e. e ≡ Refusal.Failed };

    fn from(_: Failed) -> Self {
        DeviceError::Failed
    }
}

impl From<AllocError> for DeviceError {
    ghost from_gives = { λ _ e. e ≡ Refusal.NoMemory };

    fn from(_: AllocError) -> Self {
        DeviceError::NoMemory
    }
}

impl<T: Drop> From<AllocFailed<T>> for DeviceError {
    ghost from_gives = { λ _ e. e ≡ Refusal.NoMemory };

    fn from(_: AllocFailed<T>) -> Self {
        DeviceError::NoMemory
    }
}
