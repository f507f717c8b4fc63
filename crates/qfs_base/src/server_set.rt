//! Sets of chunk servers, in one word.
ghost use Rattle.std.specs.Prelude.{◌≡◌, ◌≤◌, [], ◌∷◌, nat_eq};
ghost use Rattle.std.specs.Cmp.{partial_equiv_from_equiv};
ghost use Rattle.std.specs.Cmp.Lexicographic.{pointwise, nat_list_eq_equiv};
ghost use Rattle.std.specs.Iterator.{YieldsFirst, item_count};
ghost use Rattle.qfs_base.specs.NumberSet.{has, with_member};
ghost use Rattle.qfs_base.specs.Taken.{TakesFirst};

use crate::numbers::ServerId;
use std::alloc::AllocError;
use std::marker::Model;

/// A set of servers, by their numbers from 1 to 64. Contracts see it as the rising list of
/// these. It takes no memory.
pub struct ServerSet {
    // Bit s - 1 stands for server s.
    bits: u64,
}

impl Model for ServerSet {
    ghost use Rattle.std.specs.Prelude.{List, ℕ, ◌<◌, ◌^◌};
    ghost use Rattle.qfs_base.specs.NumberSet.{members_of_bits, bits_of_members};
    ghost use Rattle.qfs_base.specs.NumberSetLaws.{bits_of_members-members_of_bits};

    ghost Value = { List ℕ };

    ghost view = { λ s. members_of_bits 1 64 s.bits };

    ghost invariant = { λ s. s.bits < 2 ^ 64 };

    ghost inverse = { λ members. record { bits = bits_of_members 1 members } };

    ghost inverse_ok = { λ s fits i.
        record { bits = bits_of_members-members_of_bits 1 64 s.bits fits i } };
}

impl Clone for ServerSet {
    ghost is_clone = { λ set copy. copy ≡ set };

    fn clone(&self) -> Result<Self, AllocError> {
        Ok(*self)
    }
}

impl Copy for ServerSet {}

impl ServerSet {
    /// The set of no server.
    pub fn none() -> ServerSet
        ensures { result ≡ [] }
    {
        ServerSet { bits: 0 }
    }

    /// Puts a server into the set, if it isn't there.
    pub fn insert(&mut self, server: ServerId)
        requires low { 1 ≤ server }
        requires high { server ≤ 64 }
        ensures { self.new ≡ with_member self.old server }
    {
        self.bits |= 1u64 << (server - 1);
    }

    /// Whether a server is in the set.
    pub fn contains(&self, server: ServerId) -> bool
        ensures { result ≡ has self.now server }
    {
        let bits = self.bits;
        if server < 1 || server > 64 {
            return false;
        }
        (bits >> (server - 1)) & 1 == 1
    }
}

impl PartialEq for ServerSet {
    ghost eq = { pointwise nat_eq };

    ghost laws = { partial_equiv_from_equiv nat_list_eq_equiv };

    fn eq(&self, other: &Self) -> bool {
        self.bits == other.bits
    }
}

impl Eq for ServerSet {
    ghost laws = { nat_list_eq_equiv };
}

impl ServerSet {
    /// The servers of the set, rising.
    pub fn iter(&self) -> Servers
        ensures { result ≡ self.now }
    {
        Servers { left: self.bits }
    }
}

/// The servers of a set that are still to come, rising.
#[derive(Drop)]
pub struct Servers {
    left: u64,
}

impl Model for Servers {
    ghost use Rattle.std.specs.Prelude.{List, ℕ, ◌<◌, ◌^◌};
    ghost use Rattle.qfs_base.specs.NumberSet.{members_of_bits};

    ghost Value = { List ℕ };

    ghost view = { λ s. members_of_bits 1 64 s.left };

    ghost invariant = { λ s. s.left < 2 ^ 64 };
}

impl Servers {
    // Takes the least server off.
    fn take_least(&mut self) -> Option<ServerId>
        ensures { TakesFirst result self.old self.new }
    {
        let left = self.left;
        if left == 0 {
            return None;
        }
        let place = left.trailing_zeros();
        self.left = left & !(1u64 << place);
        Some((place + 1) as ServerId)
    }
}

impl Iterator for Servers {
    type Item = ServerId;

    ghost next_gives = { YieldsFirst (λ left. left) };

    ghost remaining = { item_count (λ left. left) };

    fn next(&mut self) -> Option<ServerId> {
        self.take_least()
    }
}
