//! The bytes that the slots of a block gave in a window: nine parts of one length, one after
//! another, of which those of the slots at hand are filled.

ghost use Rattle.std.specs.Prelude.{◌≡◌, ◌+◌, ◌-◌, ◌*◌, ◌<◌, ◌≤◌, ◌^◌, length};
ghost use Rattle.qfs_model_actor.specs.Pieces.{data_of};
ghost use Rattle.qfs_reader.specs.Parts.{data_parts, part_at, pieces_of, restored_part};
ghost use Rattle.qfs_reader.specs.Parts.{row_of_parts, rows_given, rows_of_parts, with_piece};
ghost use Rattle.qfs_reader.specs.Parts.{AddsCut, AreBelow, IsSameAtHand, IsSameBut};

use crate::cut::cut_to_range;
use crate::read_so_far::ReadSoFar;
use qfs_base::mask::Mask;
use qfs_base::numbers::Slot;
use qfs_base::sizes::DATA_SLOTS;
use qfs_code::laws::slots_not_at_hand_have_no_influence;
use qfs_code::restore;

/// Writes the part of a slot.
fn put_part(nine: &mut [u8], size: usize, slot: Slot, bytes: &[u8])
    requires slot { slot < 9 }
    requires nine { length nine.old ≡ 9 * size }
    requires bytes { length bytes.now ≡ size }
    ensures len { length nine.new ≡ 9 * size }
    ensures put { part_at size nine.new slot ≡ bytes.now }
    ensures others { IsSameBut size slot nine.old nine.new }
{
    let start = slot as usize * size;
    nine[start..start + size].copy_from_slice(bytes);
}

/// Keeps what a slot gave that lies behind those at hand, and answers those at hand with it.
pub fn keep_part(nine: &mut Vec<u8>, size: usize, have: Mask, slot: Slot, bytes: &[u8]) -> Mask
    requires slot { slot < 9 }
    requires nine { length nine.old.items ≡ 9 * size }
    requires bytes { length bytes.now ≡ size }
    requires below { AreBelow slot have }
    ensures len { length nine.new.items ≡ 9 * size }
    ensures pieces { pieces_of size nine.new.items result
        ≡ with_piece (pieces_of size nine.old.items have) slot bytes.now }
    ensures count { length result ≡ length have + 1 }
    ensures below { AreBelow (slot + 1) result }
{
    put_part(nine.as_mut_slice(), size, slot, bytes);
    have.with(slot)
}

/// Makes the part of a slot anew from those of six slots at hand, unless it is at hand itself.
/// `spare` is room for it.
fn restore_part(nine: &mut [u8], size: usize, have: Mask, want: Slot, spare: &mut [u8])
    requires want { want < 6 }
    requires enough { 6 ≤ length have }
    requires nine { length nine.old ≡ 9 * size }
    requires spare { length spare.old ≡ size }
    ensures len { length nine.new ≡ 9 * size }
    ensures restored { part_at size nine.new want ≡ restored_part size nine.old have want }
    ensures others { IsSameBut size want nine.old nine.new }
    ensures kept { IsSameAtHand size have nine.old nine.new }
{
    if !have.contains(want) {
        restore(have, nine, size, want, spare);
        put_part(nine, size, want, spare);
    }
}

/// Makes the parts of the data slots anew that aren't at hand, from those of six slots that are.
pub fn restore_data(nine: &mut [u8], size: usize, have: Mask, spare: &mut [u8])
    requires enough { 6 ≤ length have }
    requires nine { length nine.old ≡ 9 * size }
    requires spare { length spare.old ≡ size }
    requires mask { AreBelow 9 have }
    ensures len { length nine.new ≡ 9 * size }
    ensures data { data_parts size nine.new ≡ data_of (pieces_of size nine.old have) }
{
    // What stands in the parts that aren't at hand changes on the way, and doesn't matter.
    slots_not_at_hand_have_no_influence();
    for want in 0..DATA_SLOTS {
        restore_part(nine, size, have, want, spare);
    }
}

/// Adds what a range takes of the bytes of a row, which begins at byte `start` of the file.
fn add_row(
    nine: &[u8],
    size: usize,
    stripe: usize,
    row: usize,
    from: u32,
    to: u32,
    start: u32,
    got: &mut ReadSoFar,
)
    requires nine { length nine.now ≡ 9 * size }
    requires row { (row + 1) * stripe ≤ size }
    requires stripe { stripe ≤ 65536 }
    requires fits { start + 6 * stripe < 2 ^ 32 }
    requires got { length got.old ≤ start - from }
    ensures got { AddsCut from to start (row_of_parts stripe size nine.now row) got.old got.new }
    ensures bound { length got.new ≤ start + 6 * stripe - from }
{
    for slot in 0..DATA_SLOTS as usize {
        let at = slot * size + row * stripe;
        let offset = start + (slot * stripe) as u32;
        got.add(cut_to_range(from, to, offset, &nine[at..at + stripe]));
    }
}

/// Adds what a range takes of the bytes of `rows` rows, which begin at byte `start` of the file.
pub fn add_rows(
    nine: &[u8],
    stripe: usize,
    rows: usize,
    from: u32,
    to: u32,
    start: u32,
    got: &mut ReadSoFar,
)
    requires nine { length nine.now ≡ 9 * (rows * stripe) }
    requires rows { rows ≤ 1024 }
    requires stripe { stripe ≤ 65536 }
    requires fits { start + rows * (6 * stripe) < 2 ^ 32 }
    requires got { length got.old ≤ start - from }
    ensures got { AddsCut from to start (rows_of_parts stripe (rows * stripe) rows nine.now)
        got.old got.new }
    ensures bound { length got.new ≤ start + rows * (6 * stripe) - from }
{
    let size = rows * stripe;
    for row in 0..rows {
        let offset = start + (row * (6 * stripe)) as u32;
        add_row(nine, size, stripe, row, from, to, offset, got);
    }
}

/// Adds what a range takes of a window's `rows` rows, which begin at byte `start` of the file, from
/// what six of its slots gave. `spare` is room for one part.
pub fn add_window(
    nine: &mut [u8],
    spare: &mut [u8],
    have: Mask,
    stripe: usize,
    rows: usize,
    from: u32,
    to: u32,
    start: u32,
    got: &mut ReadSoFar,
)
    requires enough { 6 ≤ length have }
    requires mask { AreBelow 9 have }
    requires nine { length nine.old ≡ 9 * (rows * stripe) }
    requires spare { length spare.old ≡ rows * stripe }
    requires rows { rows ≤ 1024 }
    requires stripe { stripe ≤ 65536 }
    requires fits { start + rows * (6 * stripe) < 2 ^ 32 }
    requires got { length got.old ≤ start - from }
    ensures got { AddsCut from to start (rows_given stripe rows nine.old have) got.old got.new }
    ensures bound { length got.new ≤ start + rows * (6 * stripe) - from }
{
    restore_data(nine, rows * stripe, have, spare);
    add_rows(nine, stripe, rows, from, to, start, got);
}
