//! Where a script comes from, and where the output goes.
ghost use Rattle.std.specs.Prelude.{◌≡◌, ℕ, ◌<◌, ◌≤◌, List, Option, length, take, is_some, IfOk, OnErr};
ghost use Rattle.qfs_device.specs.Fault.{Rose};
ghost use Rattle.qfs_device.specs.Stream.{Gives, IsAtEnd, Appends};

use crate::errors::Failed;

/// A stream of bytes to be read. It may tell clauses what is left of it; whether it does stays
/// the same through every call.
pub trait Source: Drop + Send + Sync {
    /// The bytes that are left, if the source tells them.
    ghost left: { Self → Option (List ℕ) };

    /// How often the source has failed.
    ghost faults: { Self → ℕ };

    /// Takes bytes from the front into `out`, and answers how many: at least one, unless `out`
    /// is empty or nothing is left.
    fn read(&mut self, out: &mut [u8]) -> Result<usize, Failed>
        ensures within { IfOk result (λ count. count ≤ length out.old) }
        ensures gives { IfOk result (λ count. Gives (take count out.new) (left self.old) (left self.new)) }
        ensures end { IfOk result (λ count. count ≡ 0 → 0 < length out.old → IsAtEnd (left self.old)) }
        ensures tells { is_some (left self.new) ≡ is_some (left self.old) }
        ensures never_falls { faults self.old ≤ faults self.new }
        ensures cause { OnErr result (Rose (faults self.old) (faults self.new)) };
}

/// A stream of bytes to be written. It may tell clauses what was written; whether it does stays
/// the same through every call.
pub trait Sink: Drop + Send + Sync {
    /// The bytes that were written, if the sink tells them.
    ghost written: { Self → Option (List ℕ) };

    /// How often the sink has failed.
    ghost faults: { Self → ℕ };

    /// Writes bytes from the front of a piece, and answers how many: at least one, unless the
    /// piece is empty. A write that fails writes nothing.
    fn write(&mut self, bytes: &[u8]) -> Result<usize, Failed>
        ensures within { IfOk result (λ count. count ≤ length bytes.now) }
        ensures some { IfOk result (λ count. 0 < length bytes.now → 0 < count) }
        ensures appends { IfOk result (λ count. Appends (take count bytes.now) (written self.old) (written self.new)) }
        ensures err { OnErr result (written self.new ≡ written self.old) }
        ensures never_falls { faults self.old ≤ faults self.new }
        ensures cause { OnErr result (Rose (faults self.old) (faults self.new)) };
}
