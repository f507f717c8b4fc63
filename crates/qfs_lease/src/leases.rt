//! The live leases.
ghost use Rattle.std.specs.Prelude.{◌≡◌, ◌≤◌, ◌<◌, ◌+◌, ◌++◌, [], ◌∷◌, ℕ, List, max, true, false, find, IsTrue, IsOk, OnOk, OnErr, IfOk, IfSome};
ghost use Rattle.std.specs.Option.{IfNone, option_map};
ghost use Rattle.qfs_base.specs.declared.image.Lease.{Lease};
ghost use Rattle.qfs_base.specs.Sizes.{LAST_U64};
ghost use Rattle.qfs_base.specs.Table.{Each, IsRising, without, has_key};
ghost use Rattle.qfs_model_meta.specs.Leases.{lease_cmp, is_lease, is_live_lease, holds_lease, give_lease, end_lease, has_run_out};
ghost use Rattle.qfs_lease.specs.IndexKeys.{from_order};
ghost use Rattle.qfs_lease.specs.LiveLeases.{is_of_actor, holder_of, is_held_below, AllRunOut};

use crate::index::{EndedBy, IndexRow, OnFile, put_end};
use crate::row::{AtLeast, ByNumber, LeaseRow};
use crate::view::LeaseView;
use qfs_base::image::{Lease, LeaseList};
use qfs_base::listing::Listing;
use qfs_base::numbers::{ActorId, FileId, LeaseId};
use qfs_table::{Run, Table};
use std::alloc::{AllocError, Global};
use std::marker::Model;

/// The live leases by number, the number that the next one gets, and how many more have room.
/// Contracts see these three.
#[derive(Drop)]
pub struct Leases {
    by_number: Table<LeaseRow>,
    by_file: Table<IndexRow>,
    /// Those that end by themselves.
    by_end: Table<IndexRow>,
    next: LeaseId,
}

impl Model for Leases {
    ghost use Rattle.qfs_lease.specs.LiveLeases.{LiveLeases, AreLeases};

    ghost Value = { LiveLeases };

    ghost view = { λ it. record {
      leases = it.by_number.rows;
      next = it.next;
      spare = it.by_number.spare;
    } };

    ghost invariant = { λ it. AreLeases it.by_number it.by_file it.by_end it.next };
}

impl Leases {
    /// No leases, which take no memory. The first one gets the number 1.
    pub fn new(alloc: Global) -> Leases
        ensures leases { result.leases ≡ [] }
        ensures next { result.next ≡ 1 }
        ensures spare { result.spare ≡ 0 }
    {
        Leases::starting(alloc, 1)
    }

    /// No leases, where the first one gets this number.
    fn starting(alloc: Global, next: LeaseId) -> Leases
        ensures leases { result.leases ≡ [] }
        ensures next { result.next ≡ next }
        ensures spare { result.spare ≡ 0 }
    {
        Leases {
            by_number: Table::new(alloc),
            by_file: Table::new(alloc),
            by_end: Table::new(alloc),
            next,
        }
    }

    /// The leases of a list, which are in the order of their numbers, with the number that the
    /// next one gets.
    pub fn from_list(alloc: Global, list: LeaseList, next: LeaseId) -> Result<Leases, AllocError>
        requires in_order { IsRising lease_cmp list }
        requires numbers { Each (λ lease. lease.lease < next) list }
        ensures leases { IfOk result (λ it. it.leases ≡ list) }
        ensures next { IfOk result (λ it. it.next ≡ next) }
        ensures spare { IfOk result (λ it. it.spare ≡ 0) }
    {
        let mut leases = Leases::starting(alloc, 0);
        for lease in list.into_vec() {
            leases.reserve(1)?;
            leases.put(lease);
        }
        leases.next = next;
        Ok(leases)
    }

    /// The live leases as rows, by number.
    pub fn rows(&self) -> Run<'_, LeaseRow>
        ensures { result ≡ self.now.leases }
    {
        self.by_number.iter()
    }

    /// All live leases, by number.
    pub fn list(&self, alloc: Global) -> Result<LeaseList, AllocError>
        ensures leases { IfOk result (λ list. list ≡ self.now.leases) }
        ensures in_order { IfOk result (IsRising lease_cmp) }
        ensures numbers { IfOk result (Each (λ lease. lease.lease < self.now.next)) }
    {
        let mut list = Listing::with_capacity(alloc, self.by_number.len())?;
        for row in self.by_number.iter() {
            list.push(row.lease())?;
        }
        Ok(list)
    }

    /// Makes room for so many more leases, those that have room already included. On want of
    /// memory all stays as it was.
    pub fn reserve(&mut self, entries: u32) -> Result<(), AllocError>
        ensures leases { self.new.leases ≡ self.old.leases }
        ensures next { self.new.next ≡ self.old.next }
        ensures ok { OnOk result (self.new.spare ≡ max self.old.spare entries) }
        ensures enough { entries ≤ self.old.spare → IsOk result }
        ensures err { OnErr result (self.new ≡ self.old) }
    {
        let entries = entries as usize;
        self.by_file.reserve(entries)?;
        self.by_end.reserve(entries)?;
        self.by_number.reserve(entries)
    }

    /// Gives an actor the next lease, on a file. It ends with the tick that brings the clock to
    /// `until`, or lasts until it is given back where that is 0. It takes memory only where no
    /// lease has room; on want of memory all stays as it was.
    pub fn grant(&mut self, actor: ActorId, file: FileId, until: u64) -> Result<LeaseId, AllocError>
        requires { self.old.next < LAST_U64 }
        ensures number { IfOk result (λ number. number ≡ self.old.next) }
        ensures leases { OnOk result
            (self.new.leases ≡ give_lease self.old.next actor file until self.old.leases) }
        ensures next { OnOk result (self.new.next ≡ self.old.next + 1) }
        ensures spare { OnOk result (self.new.spare + 1 ≡ max self.old.spare 1) }
        ensures enough { 1 ≤ self.old.spare → IsOk result }
        ensures err { OnErr result (self.new ≡ self.old) }
    {
        self.reserve(1)?;
        Ok(self.give(actor, file, until))
    }

    /// The same, where a lease has room: it takes no memory.
    pub fn give(&mut self, actor: ActorId, file: FileId, until: u64) -> LeaseId
        requires number { self.old.next < LAST_U64 }
        requires room { 1 ≤ self.old.spare }
        ensures number { result ≡ self.old.next }
        ensures leases { self.new.leases
            ≡ give_lease self.old.next actor file until self.old.leases }
        ensures next { self.new.next ≡ self.old.next + 1 }
        ensures spare { self.new.spare + 1 ≡ self.old.spare }
    {
        let lease = self.next;
        self.put(Lease {
            lease,
            actor,
            file,
            until,
        });
        lease
    }

    /// Puts a lease behind all others.
    fn put(&mut self, lease: Lease)
        requires room { 1 ≤ self.old.spare }
        requires number { self.old.next ≤ lease.lease }
        requires last { lease.lease < LAST_U64 }
        ensures leases { self.new.leases ≡ self.old.leases ++ lease ∷ [] }
        ensures next { self.new.next ≡ lease.lease + 1 }
        ensures spare { self.new.spare + 1 ≡ self.old.spare }
    {
        put_end(&mut self.by_end, &lease);
        self.by_file.insert(IndexRow::by_file(&lease));
        self.by_number.insert(LeaseRow::new(lease));
        self.next = lease.lease + 1;
    }

    /// Who holds a lease and on which file, or None where it isn't live.
    pub fn look(&self, lease: LeaseId) -> Option<(ActorId, FileId)>
        ensures { result ≡ option_map holder_of (find (is_lease lease) self.now.leases) }
    {
        let lease = self.by_number.get(&ByNumber { lease })?.lease();
        Some((lease.actor, lease.file))
    }

    /// Whether a lease is live and an actor's.
    pub fn holds(&self, actor: ActorId, lease: LeaseId) -> bool
        ensures { result ≡ holds_lease actor lease self.now.leases }
    {
        match self.by_number.get(&ByNumber { lease }) {
            Some(row) => row.lease().actor == actor,
            None => false,
        }
    }

    /// Ends a lease, and says whether it was live. It takes no memory.
    pub fn end(&mut self, lease: LeaseId) -> bool
        ensures live { result ≡ is_live_lease lease self.old.leases }
        ensures leases { self.new.leases ≡ end_lease lease self.old.leases }
        ensures next { self.new.next ≡ self.old.next }
        ensures spare { self.new.spare ≡ self.old.spare }
    {
        match self.by_number.remove(&ByNumber { lease }) {
            Some(row) => {
                let lease = row.lease();
                self.by_file.remove(&IndexRow::by_file(&lease));
                self.by_end.remove(&IndexRow::by_end(&lease));
                true
            }
            None => false,
        }
    }

    /// Ends each lease whose reading isn't 0 and has come. It takes no memory, and costs what it
    /// ends.
    pub fn expire(&mut self, clock: u64)
        ensures leases { self.new.leases ≡ without (has_run_out clock) self.old.leases }
        ensures next { self.new.next ≡ self.old.next }
        ensures spare { self.new.spare ≡ self.old.spare }
    {
        while let Some(lease) = self.first_over(clock) {
            self.end(lease);
        }
    }

    /// The lease that ends first, if its time has come.
    fn first_over(&self, clock: u64) -> Option<LeaseId>
        ensures live { IfSome result (λ number. IsTrue (is_live_lease number self.now.leases)) }
        ensures over { IfSome result (λ number. AllRunOut clock number self.now.leases) }
        ensures none { IfNone result
            (without (has_run_out clock) self.now.leases ≡ self.now.leases) }
    {
        let row = self.by_end.get(&EndedBy { clock })?;
        Some(row.lease)
    }

    /// Ends all leases of an actor. It takes no memory, and passes each lease once.
    pub fn drop_of(&mut self, actor: ActorId)
        ensures leases { self.new.leases ≡ without (is_of_actor actor) self.old.leases }
        ensures next { self.new.next ≡ self.old.next }
        ensures spare { self.new.spare ≡ self.old.spare }
    {
        let mut from = 0;
        while let Some(lease) = self.first_from(from) {
            if lease.actor == actor {
                self.end(lease.lease);
            }
            from = lease.lease + 1;
        }
    }

    /// The first lease with this number or one above it.
    fn first_from(&self, from: LeaseId) -> Option<Lease>
        ensures found { result ≡ find (has_key (from_order from)) self.now.leases }
        ensures below { IfSome result (λ lease. lease.lease < self.now.next) }
        ensures last { self.now.next ≤ LAST_U64 }
        ensures rising { IsRising lease_cmp self.now.leases }
    {
        let row = self.by_number.get(&AtLeast { lease: from })?;
        Some(row.lease())
    }
}

impl LeaseView for Leases {
    ghost leases = { λ it. it.leases };

    ghost next_number = { λ it. it.next };

    fn next(&self) -> LeaseId {
        self.next
    }

    fn live_on(&self, file: FileId, below: LeaseId) -> bool {
        self.by_file.get(&OnFile { file, below }).is_some()
    }
}
