//! Why the copy of a slot could not be made.

use qfs_base::lists::Cause;
use qfs_base::numbers::ServerId;

/// Why the copy of a slot could not be made.
#[derive(Clone, Copy)]
pub enum Failure {
    /// The copy that it is made of could not be read.
    Source { server: ServerId, cause: Cause },
    /// It could not be stored.
    Dest { server: ServerId, cause: Cause },
    /// Its file is gone.
    Gone,
}
