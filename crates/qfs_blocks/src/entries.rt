//! The condemned copies, by their numbers.
ghost use Rattle.std.specs.Prelude.{◌≡◌, ◌≤◌, ◌<◌, ◌+◌, [], ◌∷◌, ◌++◌, find, max, IsTrue, IsOk, IfOk, OnOk, OnErr, IfSome};
ghost use Rattle.std.specs.Option.{IfNone, option_map};
ghost use Rattle.std.specs.List.{list_any};
ghost use Rattle.qfs_base.specs.declared.image.CondemnedEntry.{CondemnedEntry};
ghost use Rattle.qfs_base.specs.Sizes.{LAST_U64};
ghost use Rattle.qfs_base.specs.Table.{Each, IsRising, without};
ghost use Rattle.qfs_blocks.specs.Entries.{AreOn, condemned_of, entry_cmp, is_entry, is_entry_of, is_entry_on, is_ordered, mark_entry, new_entry, next_entry, sweep_entry};

use crate::change::Order;
use crate::index::{CopyRow, OfCopy, OnServer};
use crate::key::{AboveNumber, Numbered};
use crate::lists::entry_list;
use crate::row::EntryRow;
use crate::scan::first_to_go;
use qfs_base::chunk::Copy as ChunkCopy;
use qfs_base::image::{CondemnedEntry, CondemnedList, Servers};
use qfs_base::numbers::{LeaseId, ServerId};
use qfs_base::reply::Condemned;
use qfs_base::request::SlotId;
use qfs_lease::LeaseView;
use qfs_table::Table;
use std::alloc::{AllocError, Global};
use std::marker::Model;

/// The condemned copies by number, the number that the next one gets, and how many more have
/// room. Contracts see these three.
#[derive(Drop)]
pub struct Entries {
    table: Table<EntryRow>,
    by_copy: Table<CopyRow>,
    next: u64,
}

impl Model for Entries {
    ghost use Rattle.qfs_blocks.specs.BlockTables.{AreEntries, CondemnedEntries};

    ghost Value = { CondemnedEntries };

    ghost view = { λ it. record {
      entries = it.table.rows;
      next = it.next;
      spare = it.table.spare;
    } };

    ghost invariant = { λ it. AreEntries it.table it.by_copy it.next };
}

impl Entries {
    /// No condemned copies, which take no memory. The first one gets this number.
    pub fn new(alloc: Global, next: u64) -> Entries
        ensures entries { result.entries ≡ [] }
        ensures next { result.next ≡ next }
        ensures spare { result.spare ≡ 0 }
    {
        Entries {
            table: Table::new(alloc),
            by_copy: Table::new(alloc),
            next,
        }
    }

    /// The condemned copies of a list, which is in the order of their numbers, with the number that
    /// the next one gets.
    pub fn from_list(alloc: Global, list: CondemnedList, next: u64) -> Result<Entries, AllocError>
        requires in_order { IsRising entry_cmp list }
        requires numbers { Each (λ (entry : CondemnedEntry). entry.condemned.number < next) list }
        ensures entries { IfOk result (λ it. it.entries ≡ list) }
        ensures next { IfOk result (λ it. it.next ≡ next) }
        ensures spare { IfOk result (λ it. it.spare ≡ 0) }
    {
        let mut entries = Entries::new(alloc, 0);
        for entry in list.into_vec() {
            entries.reserve(1)?;
            entries.put(entry);
        }
        entries.next = next;
        Ok(entries)
    }

    /// All condemned copies, by number.
    pub fn list(&self, alloc: Global) -> Result<CondemnedList, AllocError>
        ensures { IfOk result (λ list. list ≡ self.now.entries) }
    {
        entry_list(alloc, self.table.iter())
    }

    /// Makes room for so many more, those that have room already included. On want of memory all
    /// stays as it was.
    pub fn reserve(&mut self, entries: usize) -> Result<(), AllocError>
        ensures entries { self.new.entries ≡ self.old.entries }
        ensures next { self.new.next ≡ self.old.next }
        ensures ok { OnOk result (self.new.spare ≡ max self.old.spare entries) }
        ensures enough { entries ≤ self.old.spare → IsOk result }
        ensures err { OnErr result (self.new ≡ self.old) }
    {
        self.by_copy.reserve(entries)?;
        self.table.reserve(entries)
    }

    /// The number that the next condemned copy gets.
    pub fn next(&self) -> u64
        ensures { result ≡ self.now.next }
    {
        self.next
    }

    /// Puts a copy of a slot behind all others, where the next lease gets the number `below`.
    pub fn condemn(&mut self, id: SlotId, copy: ChunkCopy, below: LeaseId)
        requires room { 1 ≤ self.old.spare }
        requires number { self.old.next < LAST_U64 }
        ensures entries { self.new.entries ≡ self.old.entries
            ++ new_entry self.old.next id.block id.slot copy below ∷ [] }
        ensures next { self.new.next ≡ self.old.next + 1 }
        ensures spare { self.new.spare + 1 ≡ self.old.spare }
    {
        let condemned = Condemned {
            number: self.next,
            block: id.block,
            slot: id.slot,
            copy,
        };
        self.put(CondemnedEntry {
            condemned,
            ordered: false,
            below,
        });
    }

    /// Puts an entry behind all others.
    fn put(&mut self, entry: CondemnedEntry)
        requires room { 1 ≤ self.old.spare }
        requires number { self.old.next ≤ entry.condemned.number }
        requires last { entry.condemned.number < LAST_U64 }
        ensures entries { self.new.entries ≡ self.old.entries ++ entry ∷ [] }
        ensures next { self.new.next ≡ entry.condemned.number + 1 }
        ensures spare { self.new.spare + 1 ≡ self.old.spare }
    {
        self.by_copy.insert(CopyRow::of(&entry));
        self.next = entry.condemned.number + 1;
        self.table.insert(EntryRow::new(entry));
    }

    /// The first copy above a number that may be ordered deleted: its server is up, it is live, and
    /// no live lease blocks it. Each copy is passed once.
    pub fn next_to_go<V: LeaseView>(
        &self,
        after: u64,
        leases: &V,
        servers: &Servers,
    ) -> Option<Condemned>
        ensures { result ≡ option_map condemned_of
            (next_entry servers.now (V.leases leases.now) after self.now.entries) }
    {
        first_to_go(
            self.table.run(&AboveNumber { number: after }),
            leases,
            servers,
        )
    }

    /// Orders the deletion of the copy of a number, if it is there.
    pub fn mark(&mut self, number: u64)
        ensures entries { self.new.entries ≡ mark_entry number self.old.entries }
        ensures next { self.new.next ≡ self.old.next }
        ensures spare { self.new.spare ≡ self.old.spare }
    {
        self.table.change(&Numbered { number }, &Order);
    }

    /// Takes the copy of a number off, if it is there and its deletion was ordered.
    pub fn sweep(&mut self, number: u64)
        ensures entries { self.new.entries ≡ sweep_entry number self.old.entries }
        ensures next { self.new.next ≡ self.old.next }
        ensures spare { self.new.spare ≡ self.old.spare }
    {
        if self.is_ordered(number) {
            self.take(number);
        }
    }

    /// Whether the deletion of the copy of a number was ordered.
    fn is_ordered(&self, number: u64) -> bool
        ensures ordered { result ≡ is_ordered (find (is_entry number) self.now.entries) }
        ensures rising { IsRising entry_cmp self.now.entries }
    {
        match self.table.get(&Numbered { number }) {
            Some(row) => row.entry().ordered,
            None => false,
        }
    }

    /// Takes the copy of a number off, if it is there. The room stays.
    fn take(&mut self, number: u64)
        ensures entries { self.new.entries ≡ without (is_entry number) self.old.entries }
        ensures next { self.new.next ≡ self.old.next }
        ensures spare { self.new.spare ≡ self.old.spare }
    {
        match self.table.remove(&Numbered { number }) {
            Some(row) => {
                self.by_copy.remove(&CopyRow::of(&row.entry()));
            }
            None => {}
        }
    }

    /// Whether a copy of a slot is condemned.
    pub fn knows(&self, id: SlotId, copy: ChunkCopy) -> bool
        ensures { result ≡ list_any (is_entry_of id.block id.slot copy) self.now.entries }
    {
        let row = CopyRow::first(id, copy);
        self.by_copy.get(&OfCopy { row }).is_some()
    }

    /// Takes all copies on a server off. The room stays.
    pub fn forget_server(&mut self, server: ServerId)
        ensures entries { self.new.entries ≡ without (is_entry_on server) self.old.entries }
        ensures next { self.new.next ≡ self.old.next }
        ensures spare { self.new.spare ≡ self.old.spare }
    {
        while let Some(number) = self.first_on(server) {
            self.take(number);
        }
    }

    /// The number of some copy on a server.
    fn first_on(&self, server: ServerId) -> Option<u64>
        ensures there { IfSome result
            (λ number. IsTrue (list_any (is_entry number) self.now.entries)) }
        ensures on { IfSome result (λ number. AreOn server number self.now.entries) }
        ensures none { IfNone result
            (without (is_entry_on server) self.now.entries ≡ self.now.entries) }
    {
        let row = self.by_copy.get(&OnServer { server })?;
        Some(row.number)
    }
}
