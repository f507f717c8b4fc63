//! A chunk that fills group by group of its rows: where each group stands, and the room for all.

ghost use Rattle.std.specs.Prelude.{◌≡◌, ◌*◌, ◌<◌, ◌≤◌, ◌↔◌, length, replicate, IfOk, IsTrue, OnErr, OnOk};
ghost use Rattle.qfs_base.specs.Sizes.{MOST_ROWS, WINDOW_ROWS};
ghost use Rattle.qfs_repair.specs.RowGroups.{group_rows};

use qfs_base::layout::Layout;
use qfs_base::sizes::WINDOW_ROWS;
use std::alloc::{AllocError, Global};

/// The bytes of a stripe.
pub fn stripe(layout: &Layout) -> u32
    ensures value { result ≡ layout.now.s }
    ensures most { result ≤ 65536 }
{
    layout.s
}

/// How many bytes a chunk of so many rows has.
fn chunk_bytes(layout: &Layout, rows: u32) -> usize
    requires { rows ≤ MOST_ROWS }
    ensures { result ≡ rows * layout.now.s }
{
    rows as usize * stripe(layout) as usize
}

/// Which byte of its chunk a group begins with.
pub fn group_start(layout: &Layout, group: u32) -> u32
    requires { group * WINDOW_ROWS < MOST_ROWS }
    ensures value { result ≡ group * WINDOW_ROWS * layout.now.s }
    ensures stripe { layout.now.s ≤ 65536 }
{
    group * WINDOW_ROWS * stripe(layout)
}

/// The rows of a group of a chunk of so many rows: 16, or what is left.
pub fn group_rows(rows: u32, group: u32) -> u32
    requires { group * WINDOW_ROWS < rows }
    ensures value { result ≡ group_rows rows group }
    ensures most { result ≤ WINDOW_ROWS }
{
    WINDOW_ROWS.min(rows - group * WINDOW_ROWS)
}

/// How many bytes that group has.
pub fn group_bytes(layout: &Layout, rows: u32, group: u32) -> usize
    requires { group * WINDOW_ROWS < rows }
    ensures { result ≡ group_rows rows group * layout.now.s }
{
    group_rows(rows, group) as usize * stripe(layout) as usize
}

/// So many zeros.
pub fn zeros(alloc: Global, len: usize) -> Result<Vec<u8>, AllocError>
    ensures { IfOk result (λ zeros. zeros.items ≡ replicate len 0) }
{
    vec![in alloc; 0; len]
}

/// Whether there is room for so many bytes, and for no more.
fn has_room(bytes: &Vec<u8>, len: usize) -> bool
    ensures { IsTrue result ↔ (length bytes.now.items ≡ len) }
{
    bytes.len() == len
}

/// Takes room for a whole chunk of so many rows, unless it is there.
pub fn make_chunk_room(
    alloc: Global,
    layout: &Layout,
    rows: u32,
    chunk: &mut Vec<u8>,
) -> Result<(), AllocError>
    requires { rows ≤ MOST_ROWS }
    ensures ok { OnOk result (length chunk.new.items ≡ rows * layout.now.s) }
    ensures there { length chunk.old.items ≡ rows * layout.now.s → chunk.new ≡ chunk.old }
    ensures err { OnErr result (chunk.new ≡ chunk.old) }
{
    let len = chunk_bytes(layout, rows);
    if !has_room(chunk, len) {
        *chunk = zeros(alloc, len)?;
    }
    Ok(())
}
