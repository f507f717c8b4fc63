//! Sets of slots.

ghost use Rattle.std.specs.Prelude.{◌≡◌, ℕ, ◌<◌, ◌≤◌, List, [], length, find, nat_le};
ghost use Rattle.qfs_base.specs.Mask.{IsMask, has_slot, insert_slot};

use crate::numbers::Slot;
use crate::sizes::SLOTS;
use std::marker::Model;

/// A set of slots, each below 9. A contract sees it as their rising list.
#[derive(Clone, Copy, PartialEq, Eq)]
pub struct Mask {
    bits: u16,
}

impl Model for Mask {
    ghost use Rattle.std.specs.Prelude.{ℕ, ◌<◌, List};
    ghost use Rattle.std.specs.Coded.{coded_ℕ, coded_list};
    ghost use Rattle.qfs_base.specs.Mask.{slots_of_bits, bits_of_slots, bits_of_slots-slots_of_bits};

    ghost Value = { List ℕ };

    ghost view = { λ m. slots_of_bits m.bits };

    ghost invariant = { λ m. m.bits < 512 };

    ghost inverse = { λ slots. record { bits = bits_of_slots slots } };

    ghost inverse_ok = { λ m within i.
        record { bits = bits_of_slots-slots_of_bits m.bits within i } };
}

impl Mask {
    /// The empty set.
    pub fn none() -> Self
        ensures { result ≡ [] }
    {
        Mask { bits: 0 }
    }

    /// The set with `slot` put in.
    pub fn with(self, slot: Slot) -> Self
        requires { slot < 9 }
        ensures { result ≡ insert_slot slot self }
    {
        Mask {
            bits: self.bits | (1 << slot),
        }
    }

    /// Whether `slot` is in the set.
    pub fn contains(&self, slot: Slot) -> bool
        ensures member { result ≡ has_slot self.now slot }
        ensures mask { IsMask self.now }
    {
        slot < SLOTS && (self.bits >> slot) & 1 == 1
    }

    /// How many slots the set has.
    pub fn count(&self) -> usize
        ensures count { result ≡ length self.now }
        ensures mask { IsMask self.now }
    {
        self.bits.count_ones() as usize
    }

    /// The smallest slot of the set that is at least `slot`.
    pub fn next_from(&self, slot: Slot) -> Option<Slot>
        requires { slot ≤ 9 }
        ensures { result ≡ find (λ s. nat_le slot s) self.now }
    {
        let _ = &self.bits;
        for next in slot..SLOTS {
            if self.contains(next) {
                return Some(next);
            }
        }
        None
    }
}
