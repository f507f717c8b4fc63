//! A table.
ghost use Rattle.std.specs.Prelude.{◌≡◌, ◌+◌, ◌≤◌, [], ◌++◌, length, find, filter, max, IsOk, OnOk, OnErr, IfOk};
ghost use Rattle.std.specs.List.{AllZip};
ghost use Rattle.std.specs.Option.{option_copied};
ghost use Rattle.qfs_base.specs.Table.{IsRising, place, without, change_where, has_key, is_behind};

use crate::key::{Change, Key, Row, WholeKey};
use crate::rows::{change_run, place_row, remove_run, take_first};
use crate::run::Run;
use crate::search::{behind_key, run_of, with_key};
use crate::shelf::{make_spare, spare_for};
use std::alloc::{AllocError, Global};
use std::marker::Model;

/// Rows in the order of their keys, and how many more have room. Contracts see both.
#[derive(Drop)]
pub struct Table<T: Row> {
    alloc: Global,
    chunks: Vec<Vec<T>>,
    spare: Vec<Vec<T>>,
    count: usize,
    promised: usize,
}

/// So many rows a table has at most, those that are promised room included.
const LIMIT: usize = 1 << 62;

impl<T: Row> Model for Table<T> {
    ghost use Rattle.qfs_table.specs.Chunks.{flat};
    ghost use Rattle.qfs_table.specs.Tables.{Contents, contents_code, IsTable};

    ghost Value = { Contents T };

    ghost coded = { contents_code T.code };

    ghost view = { λ it. record { rows = flat it.chunks.items; spare = it.promised } };

    ghost invariant = { λ it. IsTable T.cmp it.chunks it.spare it.count it.promised };
}

impl<T: Row> Table<T> {
    /// The empty table, which takes no memory.
    pub fn new(alloc: Global) -> Table<T>
        ensures rows { result.rows ≡ [] }
        ensures spare { result.spare ≡ 0 }
    {
        Table {
            alloc,
            chunks: Vec::new(alloc),
            spare: Vec::new(alloc),
            count: 0,
            promised: 0,
        }
    }

    /// The table with these rows, which have to be in order.
    pub fn from_rows(alloc: Global, rows: Vec<T>) -> Result<Table<T>, AllocError>
        requires { IsRising T.cmp rows.items }
        ensures rows { IfOk result (λ table. table.rows ≡ rows.items) }
        ensures spare { IfOk result (λ table. table.spare ≡ 0) }
    {
        let mut table = Table::new(alloc);
        for row in rows {
            table.reserve(1)?;
            table.insert(row);
        }
        Ok(table)
    }

    /// Makes room for so many insertions, those that have room already included. On want of memory
    /// the table stays, and so it does where it would come to more than 2^62 rows.
    pub fn reserve(&mut self, entries: usize) -> Result<(), AllocError>
        ensures rows { self.new.rows ≡ self.old.rows }
        ensures ok { OnOk result (self.new.spare ≡ max self.old.spare entries) }
        ensures enough { entries ≤ self.old.spare → IsOk result }
        ensures err { OnErr result (self.new ≡ self.old) }
    {
        if entries <= self.promised {
            return Ok(());
        }
        if entries > LIMIT - self.count {
            return Err(AllocError);
        }
        let wanted = spare_for(self.chunks.len(), entries);
        make_spare(self.alloc, &mut self.chunks, &mut self.spare, wanted)?;
        self.promised = entries;
        Ok(())
    }

    /// How many rows there are.
    pub fn len(&self) -> usize
        ensures { result ≡ length self.now.rows }
    {
        self.count
    }

    /// The first row with a key, or with the front of one.
    pub fn get<K: Key<T>>(&self, key: &K) -> Option<&T>
        ensures { option_copied result ≡ find (has_key (K.order key.now)) self.now.rows }
    {
        with_key(self.chunks.as_slice(), key)
    }

    /// The first row behind those with a key, or with the front of one.
    pub fn next_behind<K: Key<T>>(&self, key: &K) -> Option<&T>
        ensures { option_copied result ≡ find (is_behind (K.order key.now)) self.now.rows }
    {
        behind_key(self.chunks.as_slice(), key)
    }

    /// The rows with a key, or with the front of one.
    pub fn run<K: Key<T>>(&self, key: &K) -> Run<'_, T>
        ensures { result ≡ filter (has_key (K.order key.now)) self.now.rows }
    {
        run_of(self.chunks.as_slice(), key)
    }

    /// All rows, in their order.
    pub fn iter(&self) -> Run<'_, T>
        ensures { result ≡ self.now.rows }
    {
        Run::all(self.chunks.as_slice())
    }

    /// Copies of all rows, in their order.
    pub fn to_rows(&self, alloc: Global) -> Result<Vec<T>, AllocError>
    where
        T: Clone,
        ensures { IfOk result (λ rows. AllZip T.is_clone self.now.rows rows.items) }
    {
        let mut rows = Vec::with_capacity(alloc, self.count)?;
        for row in self.iter() {
            rows.push(row.clone()?)?;
        }
        Ok(rows)
    }

    /// Puts a row at its place, where it replaces the one with its key. It takes no memory, and a
    /// row more takes one from the room that is there.
    pub fn insert(&mut self, row: T)
        requires { 1 ≤ self.old.spare }
        ensures rows { self.new.rows ≡ place T.cmp row self.old.rows }
        ensures spare { length self.new.rows + self.new.spare
            ≡ length self.old.rows + self.old.spare }
        ensures few { self.old.spare ≤ self.new.spare + 1 }
    {
        let even = self.spare.len() < self.promised;
        let added = place_row(&mut self.chunks, &mut self.spare, row, even);
        self.count += added;
        self.promised -= added;
    }

    /// Puts rows behind all others, in their order. It takes no memory.
    pub fn append(&mut self, rows: Vec<T>)
        requires rising { IsRising T.cmp (self.old.rows ++ rows.items) }
        requires spare { length rows.items ≤ self.old.spare }
        ensures rows { self.new.rows ≡ self.old.rows ++ rows.items }
        ensures spare { self.new.spare + length rows.items ≡ self.old.spare }
    {
        for row in rows {
            self.insert(row);
        }
    }

    /// Changes the rows with a key, or with the front of one.
    pub fn change<K: Key<T>, C: Change<T>>(&mut self, key: &K, change: &C)
        ensures rows { self.new.rows
            ≡ change_where (has_key (K.order key.now)) (C.changed change.now) self.old.rows }
        ensures spare { self.new.spare ≡ self.old.spare }
    {
        change_run(&mut self.chunks, key, change);
    }

    /// Takes out the row with a key. The room stays.
    pub fn remove<K: WholeKey<T>>(&mut self, key: &K) -> Option<T>
        ensures row { result ≡ find (has_key (K.order key.now)) self.old.rows }
        ensures rows { self.new.rows ≡ without (has_key (K.order key.now)) self.old.rows }
        ensures spare { self.new.spare ≡ self.old.spare }
    {
        let row = take_first(&mut self.chunks, &mut self.spare, key);
        if row.is_some() {
            self.count -= 1;
        }
        row
    }

    /// Takes out the rows with a key, or with the front of one. The room stays.
    pub fn remove_run<K: Key<T>>(&mut self, key: &K)
        ensures rows { self.new.rows ≡ without (has_key (K.order key.now)) self.old.rows }
        ensures spare { self.new.spare ≡ self.old.spare }
    {
        self.count = remove_run(&mut self.chunks, &mut self.spare, key, self.count);
    }
}
