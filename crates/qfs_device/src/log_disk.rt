//! The disks that keep the metaserver's log and its checkpoints.
ghost use Rattle.std.specs.Prelude.{◌≡◌, ℕ};

/// A disk for the metaserver's log: a file of bytes.
pub trait LogDisk: Drop + Send + Sync {
    /// How many bytes the file has.
    ghost length_of: { Self → ℕ };

    /// How often the disk has failed.
    ghost faults: { Self → ℕ };

    /// The length of the file, in bytes.
    fn size(&self) -> u64
        ensures { result ≡ length_of self.now };
}

/// The metaserver's two disks, as far as they are there.
#[derive(Drop)]
pub struct MetaDisks<L> {
    pub left: Option<L>,
    pub right: Option<L>,
}
