//! Rows in chunks, placed, changed and taken out by their keys.
ghost use Rattle.std.specs.Prelude.{◌≡◌, ◌+◌, ◌*◌, ◌≤◌, ◌<◌, length, find, All, true, MatchOption, vec_capacity};
ghost use Rattle.qfs_base.specs.Table.{IsRising, place, without, change_where, has_key};
ghost use Rattle.qfs_table.specs.Chunks.{half, flat, IsChunk, IsSpare};
ghost use Rattle.qfs_table.specs.Keys.{without_first};
ghost use Rattle.qfs_table.specs.Tables.{held, Takes};
ghost use Rattle.qfs_table.specs.Rooms.{strain};

use crate::chunk::{HALF, MOST};
use crate::key::{BelowKey, ByRow, Change, Key, Row};
use crate::place::{Place, first_failing};
use crate::search::{has_row, search};
use crate::shelf::{
    behind, change_row, insert_row, join_around, open_first, remove_row, replace_row, settled,
};

/// How many rows stay in a chunk that is split: half of them, or all but the last where rows come
/// in order and each insertion has a spare chunk.
fn kept_rows<T>(chunks: &[Vec<T>], at: Place, even: bool) -> usize
    requires { at.chunk < length chunks.now }
    ensures low { 0 < result }
    ensures high { result < 128 }
    ensures even { even ≡ true → result ≡ half }
{
    if !even && at.chunk + 1 == chunks.len() && at.row == chunks[at.chunk].len() {
        MOST - 1
    } else {
        HALF
    }
}

/// Puts a row at its place, where it replaces the one with its key, and says how many rows there
/// are more. Where `even`, a full chunk is split into halves.
pub fn place_row<T: Row>(
    chunks: &mut Vec<Vec<T>>,
    spare: &mut Vec<Vec<T>>,
    row: T,
    even: bool,
) -> usize
    requires rising { IsRising T.cmp (flat chunks.old.items) }
    requires sound { All IsChunk chunks.old.items }
    requires spares { All IsSpare spare.old.items }
    requires spare { 0 < length spare.old.items }
    requires slots { held chunks.old spare.old ≤ vec_capacity chunks.old }
    ensures rows { flat chunks.new.items ≡ place T.cmp row (flat chunks.old.items) }
    ensures longer { length (flat chunks.new.items) ≡ length (flat chunks.old.items) + result }
    ensures one { result ≤ 1 }
    ensures sound { All IsChunk chunks.new.items }
    ensures spares { All IsSpare spare.new.items }
    ensures slots { vec_capacity chunks.new ≡ vec_capacity chunks.old }
    ensures spare_slots { vec_capacity spare.new ≡ vec_capacity spare.old }
    ensures count { held chunks.new spare.new ≡ held chunks.old spare.old }
    ensures few { length spare.old.items ≤ length spare.new.items + result }
    ensures many { even ≡ true → Takes result chunks.old spare.old chunks.new spare.new }
{
    match search(chunks.as_slice(), &ByRow { row: &row }) {
        Ok(at) => {
            replace_row(chunks, at, row);
            0
        }
        Err(at) => {
            if chunks.is_empty() {
                open_first(chunks, spare, row);
            } else {
                let at = settled(chunks.as_slice(), at);
                let keep = kept_rows(chunks.as_slice(), at, even);
                insert_row(chunks, spare, at, row, keep);
            }
            1
        }
    }
}

/// Takes out the first row with a key.
pub fn take_first<T: Row, K: Key<T>>(
    chunks: &mut Vec<Vec<T>>,
    spare: &mut Vec<Vec<T>>,
    key: &K,
) -> Option<T>
    requires rising { IsRising T.cmp (flat chunks.old.items) }
    requires sound { All IsChunk chunks.old.items }
    requires spares { All IsSpare spare.old.items }
    requires spare_slots { held chunks.old spare.old ≤ vec_capacity spare.old }
    ensures row { result ≡ find (has_key (K.order key.now)) (flat chunks.old.items) }
    ensures rows { flat chunks.new.items
        ≡ without_first (has_key (K.order key.now)) (flat chunks.old.items) }
    ensures sound { All IsChunk chunks.new.items }
    ensures spares { All IsSpare spare.new.items }
    ensures slots { vec_capacity chunks.new ≡ vec_capacity chunks.old }
    ensures spare_slots { vec_capacity spare.new ≡ vec_capacity spare.old }
    ensures count { held chunks.new spare.new ≡ held chunks.old spare.old }
    ensures more { length spare.old.items ≤ length spare.new.items }
    ensures strain { Takes 0 chunks.old spare.old chunks.new spare.new }
{
    match search(chunks.as_slice(), key) {
        Ok(at) => {
            let row = remove_row(chunks, spare, at);
            join_around(chunks, spare, at.chunk);
            Some(row)
        }
        Err(_) => None,
    }
}

/// Takes out the rows with a key. Of `count` rows it says how many are left.
pub fn remove_run<T: Row, K: Key<T>>(
    chunks: &mut Vec<Vec<T>>,
    spare: &mut Vec<Vec<T>>,
    key: &K,
    count: usize,
) -> usize
    requires rising { IsRising T.cmp (flat chunks.old.items) }
    requires sound { All IsChunk chunks.old.items }
    requires spares { All IsSpare spare.old.items }
    requires spare_slots { held chunks.old spare.old ≤ vec_capacity spare.old }
    requires counted { count ≡ length (flat chunks.old.items) }
    ensures rows { flat chunks.new.items
        ≡ without (has_key (K.order key.now)) (flat chunks.old.items) }
    ensures counted { result ≡ length (flat chunks.new.items) }
    ensures fewer { result ≤ count }
    ensures rising { IsRising T.cmp (flat chunks.new.items) }
    ensures sound { All IsChunk chunks.new.items }
    ensures spares { All IsSpare spare.new.items }
    ensures slots { vec_capacity chunks.new ≡ vec_capacity chunks.old }
    ensures spare_slots { vec_capacity spare.new ≡ vec_capacity spare.old }
    ensures count { held chunks.new spare.new ≡ held chunks.old spare.old }
    ensures more { length spare.old.items ≤ length spare.new.items }
    ensures strain { Takes 0 chunks.old spare.old chunks.new spare.new }
{
    let mut left = count;
    'run: while take_first(chunks, spare, key).is_some() {
        left -= 1;
    }
    left
}

/// Changes the rows with a key.
pub fn change_run<T: Row, K: Key<T>, C: Change<T>>(chunks: &mut Vec<Vec<T>>, key: &K, change: &C)
    requires rising { IsRising T.cmp (flat chunks.old.items) }
    requires sound { All IsChunk chunks.old.items }
    ensures rows { flat chunks.new.items
        ≡ change_where (has_key (K.order key.now)) (C.changed change.now) (flat chunks.old.items) }
    ensures sound { All IsChunk chunks.new.items }
    ensures slots { vec_capacity chunks.new ≡ vec_capacity chunks.old }
    ensures count { length chunks.new.items ≡ length chunks.old.items }
    ensures strain { strain chunks.new.items ≤ strain chunks.old.items }
{
    let mut at = first_failing(chunks.as_slice(), &BelowKey { key });
    'run: while has_row(chunks.as_slice(), at, key) {
        change_row(chunks, at, change);
        at = behind(chunks.as_slice(), at);
    }
}
