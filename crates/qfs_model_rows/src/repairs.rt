//! Copies are recovered, moved and swept.

ghost use Rattle.qfs_model_rows.specs.Repairs.{MovedDuringGet, RecoveredThenBack, TwoRecoveries, Evacuations, HealedAfterSleep, Balanced, RemovedDuringGet, Healed, BarredMoves};

/// A copy is moved during a get, and the old one is deleted after it.
pub fn moved_during_get()
    ensures { MovedDuringGet }
{}

/// A copy that was recovered is deleted when its server comes back.
pub fn recovered_then_back()
    ensures { RecoveredThenBack }
{}

/// A second recovery of a slot is refused while the first one runs.
pub fn two_recoveries()
    ensures { TwoRecoveries }
{}

/// A server is evacuated where another can take its copies.
pub fn evacuations()
    ensures { Evacuations }
{}

/// What stands on a server that hibernates is healed only after its reading of the clock.
pub fn healed_after_sleep()
    ensures { HealedAfterSleep }
{}

/// A server with two copies more than another gives it one.
pub fn balanced()
    ensures { Balanced }
{}

/// A file is removed during a get, and its copies are deleted after it.
pub fn removed_during_get()
    ensures { RemovedDuringGet }
{}

/// A server that was emptied holds its slot anew.
pub fn healed()
    ensures { Healed }
{}

/// No copy goes to a server that is down or has a copy of its block.
pub fn barred_moves()
    ensures { BarredMoves }
{}
