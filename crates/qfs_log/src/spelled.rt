//! What a content in bytes spells.
ghost use Rattle.std.specs.Prelude.{ℕ, List};
ghost use Rattle.qfs_log.specs.Spells.{AreSpelled};

/// What is found in the bytes of two disks is what a load of them finds: an image and bodies that are
/// found spell the state and the requests of the metaserver's definition of its disks, and where
/// nothing is found neither disk is a checkpoint there.
pub fn contents_are_spelled()
    ensures { (left right : List ℕ) → AreSpelled left right }
{}
