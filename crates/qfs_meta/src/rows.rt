//! Tables: lists of rows in the order of their keys.
ghost use Rattle.std.specs.Prelude.{◌≡◌, ◌≤◌, ◌<◌, ◌+◌, ◌^◌, [], ◌++◌, length, map, filter, take, drop, slice_range, insert, slice_set, OnOk, OnErr, IfOk, IfErr};
ghost use Rattle.std.specs.declared.cmp.Ordering.{Ordering};
ghost use Rattle.qfs_base.specs.Table.{has_key, place};
ghost use Rattle.qfs_meta.specs.Runs.{IsInOrder, IsRun};

use qfs_base::listing::Listing;
use std::alloc::{AllocError, Global};
use std::cmp::Ordering;
use std::mem;

/// A key of a table's rows: that of one row, or one that rows next to each other share. The rows
/// are kept in the order of their keys.
pub trait Key<T> {
    /// How the key compares with that of a row.
    ghost order: { Self → T → Ordering };

    fn order(&self, row: &T) -> Ordering
        ensures { result ≡ order self.now row.now };
}

/// The rows from `start` on that come before `end`.
#[derive(Clone, Copy)]
pub struct Run {
    pub start: usize,
    pub end: usize,
}

impl Run {
    /// The one row at a place.
    pub fn one(at: usize) -> Run
        requires { at + 1 < 2 ^ 64 }
        ensures { result ≡ record { start = at; end = at + 1 } }
    {
        Run {
            start: at,
            end: at + 1,
        }
    }
}

/// What happens to each row of a table.
pub trait RowChange<T> {
    /// The row after the change.
    ghost changed: { Self → T → T };

    fn change(&self, row: &mut T)
        ensures { row.new ≡ changed self.now row.old };
}

/// Takes all items out of a list.
pub fn take_items<T>(alloc: Global, list: &mut Listing<T>) -> Vec<T>
    ensures items { result.items ≡ list.old }
    ensures empty { list.new ≡ [] }
{
    mem::replace(list, Listing::new(alloc)).into_vec()
}

/// Changes each row of a table.
pub fn change_rows<T: Drop, C: RowChange<T>>(alloc: Global, rows: &mut Listing<T>, change: &C)
    ensures { rows.new ≡ map (C.changed change.now) rows.old }
{
    let mut items = take_items(alloc, rows);
    change_items(&mut items, change);
    *rows = Listing::from_vec(items);
}

/// Changes the rows of a run.
pub fn change_run<T: Drop, C: RowChange<T>>(
    alloc: Global,
    rows: &mut Listing<T>,
    run: Run,
    change: &C,
)
    requires start { run.start ≤ run.end }
    requires end { run.end ≤ length rows.old }
    ensures { rows.new ≡ take run.start rows.old ++ (map (C.changed change.now) (slice_range rows.old run.start run.end) ++ drop run.end rows.old) }
{
    let mut items = take_items(alloc, rows);
    change_items(&mut items[run.start..run.end], change);
    *rows = Listing::from_vec(items);
}

/// Changes each item of a slice.
fn change_items<T, C: RowChange<T>>(items: &mut [T], change: &C)
    ensures { items.new ≡ map (C.changed change.now) items.old }
{
    for at in 0..items.len() {
        change.change(&mut items[at]);
    }
}

/// The rows with a key; where there are none, the place where they would stand.
pub fn run_of<T, K: Key<T>>(rows: &[T], key: &K) -> Run
    requires { IsInOrder (K.order key.now) rows.now }
    ensures { IsRun (K.order key.now) rows.now result }
{
    Run {
        start: rows.partition_point(|row| key.order(row).is_gt()),
        end: rows.partition_point(|row| key.order(row).is_ge()),
    }
}

/// The rows with a key.
pub fn rows_of<'a, T, K: Key<T>>(rows: &'a [T], key: &K) -> &'a [T]
    requires { IsInOrder (K.order key.now) rows.now }
    ensures { result.now ≡ filter (has_key (K.order key.now)) rows.now }
{
    let run = run_of(rows, key);
    &rows[run.start..run.end]
}

/// Where a row stands in a table: `Ok` at the row with its key, or `Err` at the place where it is
/// to be inserted.
pub fn search<T: Key<T>>(rows: &[T], row: &T) -> Result<usize, usize>
    requires { IsInOrder (T.order row.now) rows.now }
    ensures found { IfOk result (λ at. (at < length rows.now) × (place T.order row.now rows.now ≡ slice_set rows.now at row.now)) }
    ensures absent { IfErr result (λ at. (at ≤ length rows.now) × (place T.order row.now rows.now ≡ insert rows.now at row.now)) }
    ensures none { IfErr result (λ at. filter (has_key (T.order row.now)) rows.now ≡ []) }
{
    let run = run_of(rows, row);
    if run.start < run.end {
        Ok(run.start)
    } else {
        Err(run.start)
    }
}

/// Puts a row at its place, where it replaces the one with its key. On want of memory the table
/// stays.
pub fn place<T: Key<T> + Drop>(rows: &mut Listing<T>, row: T) -> Result<(), AllocError>
    requires { IsInOrder (T.order row) rows.old }
    ensures ok { OnOk result (rows.new ≡ place T.order row rows.old) }
    ensures err { OnErr result (rows.new ≡ rows.old) }
{
    match search(rows.as_slice(), &row) {
        Ok(at) => {
            rows.set(at, row);
            Ok(())
        }
        Err(at) => rows.insert(at, row),
    }
}
