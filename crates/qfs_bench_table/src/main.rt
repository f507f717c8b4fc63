//! How long the calls of a table take beside those of a `BTreeMap` on the same rows:
//! `qfs_bench_table measure` prints nanoseconds of processor time for one call, for rows that come
//! in order and for mixed ones.
#![tactic(auto)]

use qfs_table::{Key, Row, Table, WholeKey};
use std::alloc::{AllocError, Global};
use std::cmp::Ordering;
use std::collections::BTreeMap;
use std::rt::Runtime;
use std::time::{CpuClock, Duration};
use std::{env, io};

/// A row of 64 bytes.
#[derive(Drop)]
pub struct Entry {
    pub key: u64,
    pub rest: [u64; 7],
}

impl Row for Entry {
    ghost use Rattle.std.specs.Ordering.{nat_cmp};
    ghost use Rattle.std.specs.Cmp.{nat_cmp_total, on_total};
    ghost use Rattle.qfs_bench_table.specs.declared.Entry.{Entry};

    ghost cmp = { λ a b. nat_cmp a.key b.key };

    fn cmp_row(&self, other: &Self) -> Ordering {
        self.key.cmp(&other.key)
    }

    ghost total = { on_total (λ (a : Entry). a.key) nat_cmp_total };
}

/// A number as a key.
#[derive(Drop)]
pub struct Number(pub u64);

impl Key<Entry> for Number {
    ghost use Rattle.std.specs.Ordering.{nat_cmp};
    ghost use Rattle.std.specs.Cmp.{nat_cmp_total};
    ghost use Rattle.qfs_table.specs.KeyLaws.{whole_falls};

    ghost order = { λ key row. nat_cmp key.0 row.key };

    fn order(&self, row: &Entry) -> Ordering {
        self.0.cmp(&row.key)
    }

    ghost falls = { λ key a b below. whole_falls nat_cmp_total key.0 a.key b.key below };
}

impl WholeKey<Entry> for Number {
    ghost use Rattle.std.specs.Cmp.{nat_cmp_total};
    ghost use Rattle.qfs_table.specs.KeyLaws.{whole_alone};

    ghost alone = { λ key a b below same. whole_alone nat_cmp_total key.0 a.key b.key below same };
}

fn main(rt: HostRuntime) -> io::Result<()> {
    let mut words = env::args(&rt)?;
    let _program = words.next();
    match words.next() {
        Some(_measure) => measure_all(&rt, rt.alloc()),
        None => println!(rt; "usage: qfs_bench_table measure"),
    }
}

/// Measures tables of three sizes.
fn measure_all<R: Runtime + CpuClock>(rt: &R, alloc: Global) -> io::Result<()> {
    for count in [10_000u64, 100_000, 1_000_000] {
        measure_table(rt, alloc, count, true)?;
        measure_map(rt, alloc, count, true)?;
        measure_table(rt, alloc, count, false)?;
        measure_map(rt, alloc, count, false)?;
    }
    Ok(())
}

/// Prints what the calls of a table of so many rows take.
fn measure_table<R: Runtime + CpuClock>(
    rt: &R,
    alloc: Global,
    count: u64,
    rising: bool,
) -> io::Result<()> {
    let mut table = Table::new(alloc);
    let mut many = Table::new(alloc);
    let start = rt.thread_cpu_time()?;
    put_singly(&mut table, count, rising)?;
    let put = rt.thread_cpu_time()?;
    put_at_once(&mut many, count, rising)?;
    let put_many = rt.thread_cpu_time()?;
    let found = look_up(&table, count, rising);
    let looked_up = rt.thread_cpu_time()?;
    let removed = take_out(&mut table, count, rising);
    let taken_out = rt.thread_cpu_time()?;
    println!(rt;
        "table of {count} rows, rising {rising}: insert {}, after one reserve {}, get {}, remove {} ({found} {removed})",
        each(start, put, count),
        each(put, put_many, count),
        each(put_many, looked_up, count),
        each(looked_up, taken_out, count)
    )
}

/// Prints what those of a map take.
fn measure_map<R: Runtime + CpuClock>(
    rt: &R,
    alloc: Global,
    count: u64,
    rising: bool,
) -> io::Result<()> {
    let mut map = BTreeMap::new(alloc);
    let start = rt.thread_cpu_time()?;
    put_in_map(&mut map, count, rising)?;
    let put = rt.thread_cpu_time()?;
    let found = look_up_in_map(&map, count, rising);
    let looked_up = rt.thread_cpu_time()?;
    let removed = take_out_of_map(&mut map, count, rising);
    let taken_out = rt.thread_cpu_time()?;
    println!(rt;
        "map of {count} rows, rising {rising}: insert {}, get {}, remove {} ({found} {removed})",
        each(start, put, count),
        each(put, looked_up, count),
        each(looked_up, taken_out, count)
    )
}

/// Nanoseconds for one of so many calls between two readings.
fn each(start: Duration, end: Duration, count: u64) -> u128 {
    end.saturating_sub(start).as_nanos() / u128::from(count.max(1))
}

/// The key of the row at a place: in order, or mixed.
fn key_at(at: u64, rising: bool) -> u64 {
    if rising {
        at
    } else {
        at.wrapping_mul(0x9E37_79B9_7F4A_7C15)
    }
}

/// The row at a place.
fn row_at(at: u64, rising: bool) -> Entry {
    Entry {
        key: key_at(at, rising),
        rest: [at; 7],
    }
}

/// Puts rows in, each after a `reserve` of its own.
fn put_singly(table: &mut Table<Entry>, count: u64, rising: bool) -> Result<(), AllocError> {
    for at in 0..count {
        table.reserve(1)?;
        table.insert(row_at(at, rising));
    }
    Ok(())
}

/// Puts rows in after one `reserve`.
fn put_at_once(table: &mut Table<Entry>, count: u64, rising: bool) -> Result<(), AllocError> {
    table.reserve(count as usize)?;
    for at in 0..count {
        table.insert(row_at(at, rising));
    }
    Ok(())
}

/// Puts rows into a map.
fn put_in_map(map: &mut BTreeMap<u64, Entry>, count: u64, rising: bool) -> Result<(), AllocError> {
    for at in 0..count {
        map.insert(key_at(at, rising), row_at(at, rising))?;
    }
    Ok(())
}

/// Looks each row up, and adds what is found.
fn look_up(table: &Table<Entry>, count: u64, rising: bool) -> u64 {
    let mut found = 0u64;
    for at in 0..count {
        if let Some(row) = table.get(&Number(key_at(at, rising))) {
            found = found.wrapping_add(row.rest[3]);
        }
    }
    found
}

/// The same in a map.
fn look_up_in_map(map: &BTreeMap<u64, Entry>, count: u64, rising: bool) -> u64 {
    let mut found = 0u64;
    for at in 0..count {
        if let Some(row) = map.get(&key_at(at, rising)) {
            found = found.wrapping_add(row.rest[3]);
        }
    }
    found
}

/// Takes each row out, and adds what is taken.
fn take_out(table: &mut Table<Entry>, count: u64, rising: bool) -> u64 {
    let mut found = 0u64;
    for at in 0..count {
        if let Some(row) = table.remove(&Number(key_at(at, rising))) {
            found = found.wrapping_add(row.rest[3]);
        }
    }
    found
}

/// The same from a map.
fn take_out_of_map(map: &mut BTreeMap<u64, Entry>, count: u64, rising: bool) -> u64 {
    let mut found = 0u64;
    for at in 0..count {
        if let Some(row) = map.remove(&key_at(at, rising)) {
            found = found.wrapping_add(row.rest[3]);
        }
    }
    found
}
