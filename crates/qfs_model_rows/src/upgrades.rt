//! Chunk records of both forms.

ghost use Rattle.qfs_model_rows.specs.Upgrades.{EighthRecord, UpgradedBetween, MovedToUpgraded};

/// What a device holds of a parity slot.
pub fn eighth_record()
    ensures { EighthRecord }
{}

/// A server that was upgraded writes the second form, and keeps what it has in the first.
pub fn upgraded_between()
    ensures { UpgradedBetween }
{}

/// A copy is written in the form of the server that it moves to.
pub fn moved_to_upgraded()
    ensures { MovedToUpgraded }
{}
