//! The room that changes need, and how it is made before they are.
ghost use Rattle.std.specs.Prelude.{◌≡◌, ◌+◌, IfOk, IsTrue, OnOk};
ghost use Rattle.qfs_state.specs.Reserving.{HasNumbers, IsWithin};
ghost use Rattle.qfs_state.specs.Rooms.{HasRoom, add_room, needs, needs_all, no_room};

use crate::prepared::Prepared;
use crate::state::State;
use qfs_lease::LeaseView;
use std::alloc::AllocError;
use std::marker::Model;

/// For how many rows room is needed: directories and files, entries of the file history, slot
/// records, condemned copies, leases, and dropped actors.
#[derive(Drop)]
struct Needs {
    names: u32,
    entries: u32,
    slots: u32,
    condemned: u32,
    leases: u32,
    dropped: u32,
}

impl Model for Needs {
    ghost use Rattle.qfs_state.specs.Held.{Room};

    ghost Value = { Room };

    ghost view = { λ it. record {
      names = it.names;
      entries = it.entries;
      slots = it.slots;
      condemned = it.condemned;
      leases = it.leases;
      dropped = it.dropped;
    } };
}

/// A sum of two counts, where it is one of 32 bits.
fn sum(a: u32, b: u32) -> Result<u32, AllocError>
    ensures { IfOk result (λ it. it ≡ a + b) }
{
    a.checked_add(b).ok_or(AllocError)
}

impl Needs {
    /// No room.
    fn none() -> Needs
        ensures { result ≡ no_room }
    {
        Needs {
            names: 0,
            entries: 0,
            slots: 0,
            condemned: 0,
            leases: 0,
            dropped: 0,
        }
    }

    /// The room that a change needs. It finds no memory where that is more than a count of 32 bits
    /// says.
    fn of(change: &Prepared) -> Result<Needs, AllocError>
        ensures { IfOk result (λ it. it ≡ needs change.now) }
    {
        let mut need = Needs::none();
        match change {
            Prepared::AddDirectory { .. } | Prepared::AddFile { .. } => {
                need.names = 1;
                need.entries = 1;
            }
            Prepared::TakeDirectory { .. }
            | Prepared::CloseFile { .. }
            | Prepared::AbortFile { .. }
            | Prepared::RemoveFile { .. } => need.entries = 1,
            Prepared::MovePath { moved, .. } => {
                need.names = u32::try_from(moved.len()).map_err(|_| AllocError)?;
                need.entries = 1;
            }
            Prepared::GrantSlot { .. } => need.slots = 1,
            Prepared::FailGrant { .. }
            | Prepared::GiveUp { .. }
            | Prepared::ConfirmSlot { .. }
            | Prepared::CondemnStray { .. } => need.condemned = 1,
            Prepared::EmptySlot { .. } => need.condemned = 2,
            Prepared::GiveLease { .. } => need.leases = 1,
            Prepared::DropActor { .. } => need.dropped = 1,
            Prepared::EndLease { .. }
            | Prepared::MarkOrdered { .. }
            | Prepared::TakeCondemned { .. }
            | Prepared::ServerUp { .. }
            | Prepared::ServerDown { .. }
            | Prepared::ServerLeaves { .. }
            | Prepared::ServerSleeps { .. }
            | Prepared::ClockTicks => {}
        }
        Ok(need)
    }

    /// The room that this and another need together.
    fn plus(&self, other: &Needs) -> Result<Needs, AllocError>
        ensures { IfOk result (λ it. it ≡ add_room self.now other.now) }
    {
        Ok(Needs {
            names: sum(self.names, other.names)?,
            entries: sum(self.entries, other.entries)?,
            slots: sum(self.slots, other.slots)?,
            condemned: sum(self.condemned, other.condemned)?,
            leases: sum(self.leases, other.leases)?,
            dropped: sum(self.dropped, other.dropped)?,
        })
    }

    /// The room that changes need one after another.
    fn of_all(changes: &[Prepared]) -> Result<Needs, AllocError>
        ensures { IfOk result (λ it. it ≡ needs_all changes.now) }
    {
        let mut all = Needs::none();
        for change in changes {
            all = all.plus(&Needs::of(change)?)?;
        }
        Ok(all)
    }
}

impl State {
    /// Whether there are numbers left for what goes into so much room, and places in the file
    /// history.
    fn has_numbers(&self, need: &Needs) -> bool
        ensures { IsTrue result → HasNumbers need.now self.now.image }
    {
        let Ok(place) = u32::try_from(self.names.place()) else {
            return false;
        };
        need.names <= u32::MAX - self.names.next_file()
            && need.entries <= u32::MAX - place
            && need.leases as u64 <= u64::MAX - self.leases.next()
            && need.condemned as u64 <= u64::MAX - self.blocks.next_number()
    }

    /// Makes so much room in the tables. On want of memory some of it may be there.
    fn reserve_tables(&mut self, need: &Needs) -> Result<(), AllocError>
        ensures image { self.new.image ≡ self.old.image }
        ensures grows { IsWithin self.old.room self.new.room }
        ensures ok { OnOk result (IsWithin need.now self.new.room) }
    {
        self.names.reserve(need.names)?;
        self.names.reserve_entries(need.entries as usize)?;
        self.blocks.reserve(need.slots.max(need.condemned))?;
        self.leases.reserve(need.leases)?;
        self.dropped.reserve(need.dropped as usize)
    }

    /// Makes the room that changes need, so that they may be made without memory. It finds none
    /// too where there are fewer numbers or places of the file history left than the changes may
    /// take. On want of memory nothing changes but the room, which may have grown.
    pub fn reserve(&mut self, changes: &[Prepared]) -> Result<(), AllocError>
        ensures image { self.new.image ≡ self.old.image }
        ensures grows { IsWithin self.old.room self.new.room }
        ensures ok { OnOk result (HasRoom (needs_all changes.now) self.new) }
    {
        let need = Needs::of_all(changes)?;
        if !self.has_numbers(&need) {
            return Err(AllocError);
        }
        self.reserve_tables(&need)
    }
}
