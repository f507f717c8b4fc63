//! Which calls of a thing in memory fail.
ghost use Rattle.std.specs.Prelude.{◌≡◌, ℕ, ◌↔◌, ◌+◌, min, IsTrue, Some, slice_get};
ghost use Rattle.std.specs.Bool.{OnTrue, OnFalse};
ghost use Rattle.qfs_base.specs.Sizes.{LAST_U64};
ghost use Rattle.qfs_device.specs.Fault.{RoseOnce};

/// Says of each call, in turn, whether it fails, and counts those that did.
pub trait Faults: Drop + Send + Sync {
    /// How many calls have failed.
    ghost count: { Self → ℕ };

    /// Whether the next call fails.
    fn next_fails(&mut self) -> bool
        ensures fault { OnTrue result (RoseOnce (count self.old) (count self.new)) }
        ensures no_fault { OnFalse result (count self.new ≡ count self.old) };
}

/// No call fails.
#[derive(Clone, Copy)]
pub struct NeverFails;

impl Faults for NeverFails {
    ghost count = { λ _. 0 };

    fn next_fails(&mut self) -> bool {
        false
    }
}

/// Those calls fail whose numbers are on a list. Calls are numbered from 1.
#[derive(Drop)]
pub struct FailList {
    // The numbers, rising.
    fails: Vec<u64>,
    // How many of them have come.
    passed: usize,
    // How many calls there were, and how many of them failed.
    calls: u64,
    faults: u64,
}

impl FailList {
    /// `fails` are the numbers of the calls that fail, rising.
    pub fn new(fails: Vec<u64>) -> FailList
        ensures list { result.fails.items ≡ fails.items }
        ensures start { (result.passed ≡ 0) × (result.calls ≡ 0) × (result.faults ≡ 0) }
    {
        FailList {
            fails,
            passed: 0,
            calls: 0,
            faults: 0,
        }
    }
}

impl Faults for FailList {
    ghost count = { λ list. list.faults };

    fn next_fails(&mut self) -> bool
        ensures fault { OnTrue result (RoseOnce self.old.faults self.new.faults) }
        ensures no_fault { OnFalse result (self.new.faults ≡ self.old.faults) }

        // A call fails exactly where its number is the next on the list.
        ensures call { self.new.calls ≡ min (self.old.calls + 1) LAST_U64 }
        ensures listed { IsTrue result ↔ (slice_get self.old.fails.items self.old.passed ≡ Some self.new.calls) }
    {
        self.calls = self.calls.saturating_add(1);
        if self.fails.get(self.passed) != Some(&self.calls) {
            return false;
        }
        self.passed += 1;
        self.faults = self.faults.saturating_add(1);
        true
    }
}
