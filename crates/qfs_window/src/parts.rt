//! The bytes that the slots of a block gave in a window: nine parts of one length, one after
//! another, of which those of the slots at hand are filled.

ghost use Rattle.std.specs.Prelude.{◌≡◌, ◌+◌, ◌*◌, ◌<◌, ◌≤◌, length};
ghost use Rattle.qfs_model_actor.specs.Pieces.{restored_slot};
ghost use Rattle.qfs_window.specs.Parts.{part_at, pieces_of, with_piece, AreBelow, IsSameBut};

use qfs_base::mask::Mask;
use qfs_base::numbers::Slot;
use qfs_code::laws::slots_not_at_hand_have_no_influence;
use qfs_code::restore;

/// Writes the part of a slot.
fn put_part(nine: &mut [u8], size: usize, slot: Slot, bytes: &[u8])
    requires slot { slot < 9 }
    requires nine { length nine.old ≡ 9 * size }
    requires bytes { length bytes.now ≡ size }
    ensures len { length nine.new ≡ 9 * size }
    ensures put { part_at size nine.new slot ≡ bytes.now }
    ensures others { IsSameBut size slot nine.old nine.new }
{
    let start = slot as usize * size;
    nine[start..start + size].copy_from_slice(bytes);
}

/// Keeps what a slot gave that lies behind those at hand, and answers those at hand with it.
pub fn keep_part(nine: &mut Vec<u8>, size: usize, have: Mask, slot: Slot, bytes: &[u8]) -> Mask
    requires slot { slot < 9 }
    requires nine { length nine.old.items ≡ 9 * size }
    requires bytes { length bytes.now ≡ size }
    requires below { AreBelow slot have }
    ensures len { length nine.new.items ≡ 9 * size }
    ensures pieces { pieces_of size nine.new.items result
        ≡ with_piece (pieces_of size nine.old.items have) slot bytes.now }
    ensures count { length result ≡ length have + 1 }
    ensures below { AreBelow (slot + 1) result }
{
    put_part(nine.as_mut_slice(), size, slot, bytes);
    have.with(slot)
}

/// Writes the part of a slot, made anew from those of six slots at hand. Takes no memory.
pub fn restore_slot(nine: &[u8], size: usize, have: Mask, want: Slot, out: &mut [u8])
    requires want { want < 9 }
    requires enough { 6 ≤ length have }
    requires below { AreBelow 9 have }
    requires nine { length nine.now ≡ 9 * size }
    requires out { length out.old ≡ size }
    ensures { out.new ≡ restored_slot (pieces_of size nine.now have) want }
{
    // What stands in the parts that aren't at hand doesn't matter.
    slots_not_at_hand_have_no_influence();
    restore(have, nine, size, want, out);
}
