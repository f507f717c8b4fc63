//! What stands on the metaserver's two disks: the records of its log, the images of its checkpoints, and the
//! metaserver that they spell. The function here does nothing: its contract says what small disks spell.
#![tactic(auto)]

ghost use Rattle.qfs_model_disks.specs.Examples.{DisksAreSpelled};

/// A record, an image and small disks are spelled and read as worked out by hand, and a disk that is cut off
/// is bad where it ends.
pub fn small_disks_are_spelled()
    ensures { DisksAreSpelled }
{}
