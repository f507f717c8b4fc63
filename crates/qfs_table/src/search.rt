//! Rows that are found by their keys.
ghost use Rattle.std.specs.Prelude.{◌≡◌, find, filter, All, true, false, IfOk, IfErr};
ghost use Rattle.std.specs.Option.{option_copied};
ghost use Rattle.qfs_base.specs.Table.{IsRising, has_key, is_behind};
ghost use Rattle.qfs_table.specs.Chunks.{flat, back, IsChunk};
ghost use Rattle.qfs_table.specs.Keys.{starts_tied};
ghost use Rattle.qfs_table.specs.Places.{IsPlaced, IsSought};

use crate::key::{BelowKey, Key, Row, UpToKey};
use crate::place::{Place, first_failing, row_at};
use crate::run::Run;

/// The place of the first row with a key; else, as an error, where that row would stand.
pub fn search<T: Row, K: Key<T>>(chunks: &[Vec<T>], key: &K) -> Result<Place, Place>
    requires rising { IsRising T.cmp (flat chunks.now) }
    requires sound { All IsChunk chunks.now }
    ensures found { IfOk result (λ at. IsSought true (K.order key.now) chunks.now at) }
    ensures free { IfErr result (λ at. IsSought false (K.order key.now) chunks.now at) }
{
    let at = first_failing(chunks, &BelowKey { key });
    if has_row(chunks, at, key) {
        Ok(at)
    } else {
        Err(at)
    }
}

/// Whether the row at a place has a key.
pub fn has_row<T: Row, K: Key<T>>(chunks: &[Vec<T>], at: Place, key: &K) -> bool
    requires { IsPlaced chunks.now at }
    ensures { result ≡ starts_tied (K.order key.now) (back chunks.now at.chunk at.row) }
{
    match row_at(chunks, at) {
        Some(row) => key.order(row).is_eq(),
        None => false,
    }
}

/// The first row with a key.
pub fn with_key<'a, T: Row, K: Key<T>>(chunks: &'a [Vec<T>], key: &K) -> Option<&'a T>
    requires rising { IsRising T.cmp (flat chunks.now) }
    requires sound { All IsChunk chunks.now }
    ensures { option_copied result ≡ find (has_key (K.order key.now)) (flat chunks.now) }
{
    match search(chunks, key) {
        Ok(at) => row_at(chunks, at),
        Err(_) => None,
    }
}

/// The first row behind those with a key.
pub fn behind_key<'a, T: Row, K: Key<T>>(chunks: &'a [Vec<T>], key: &K) -> Option<&'a T>
    requires rising { IsRising T.cmp (flat chunks.now) }
    requires sound { All IsChunk chunks.now }
    ensures { option_copied result ≡ find (is_behind (K.order key.now)) (flat chunks.now) }
{
    let at = first_failing(chunks, &UpToKey { key });
    row_at(chunks, at)
}

/// The rows with a key.
pub fn run_of<'a, T: Row, K: Key<T>>(chunks: &'a [Vec<T>], key: &K) -> Run<'a, T>
    requires rising { IsRising T.cmp (flat chunks.now) }
    requires sound { All IsChunk chunks.now }
    ensures { result ≡ filter (has_key (K.order key.now)) (flat chunks.now) }
{
    let from = first_failing(chunks, &BelowKey { key });
    let to = first_failing(chunks, &UpToKey { key });
    Run::between(chunks, from, to)
}
