//! The code of a block: six data slots, and three parity slots from which any three slots that are lost can be restored.
//!
//! A slot is a list of bytes. At each offset the nine bytes of the slots are a code word: with d0 to d5 the data bytes, the
//! byte of parity slot 6 + e is the sum over i of 2^(e * i) times d_i, in the field of 256 elements. No call takes memory.
#![tactic(auto)]

ghost use Rattle.std.specs.Prelude.{◌≡◌, ℕ, ◌+◌, ◌*◌, ◌<◌, ◌≤◌, List, ◌++◌, length, true, slice_index, EachIndex};
ghost use Rattle.qfs_base.specs.Mask.{has_slot};
ghost use Rattle.qfs_model_slot.specs.CodeWord.{AreCodeWords, column, parity, slot_at};
ghost use Rattle.qfs_model_slot.specs.Restored.{restored};
ghost use Rattle.qfs_code.specs.Code.{parity_slot, parity_slots, slots_of};

use crate::combine::combine;
use crate::equation::weights;
use qfs_base::mask::Mask;
use qfs_base::numbers::Slot;
use qfs_base::sizes::DATA_SLOTS;
use qfs_galois::horner_step;

mod combine;
mod equation;
pub mod laws;

/// Writes the three parity slots of six data slots.
///
/// `six` holds the data slots one after another, `size` bytes each, and `parity` takes the parity slots likewise.
pub fn encode(six: &[u8], size: usize, parity: &mut [u8])
    requires six { length six.now ≡ 6 * size }
    requires parity { length parity.old ≡ 3 * size }
    ensures parity { slots_of 3 size parity.new ≡ parity_slots size (slots_of 6 size six.now) }
    ensures words { AreCodeWords size (slots_of 6 size six.now ++ slots_of 3 size parity.new) }
{
    let (first, rest) = parity.split_at_mut(size);
    let (second, third) = rest.split_at_mut(size);
    encode_slot(six, size, 0, first);
    encode_slot(six, size, 1, second);
    encode_slot(six, size, 2, third);
}

/// Writes one parity slot of six data slots: the one of this number, 0 to 2.
///
/// `six` holds the data slots one after another, `size` bytes each.
pub fn encode_slot(six: &[u8], size: usize, number: u8, out: &mut [u8])
    requires six { length six.now ≡ DATA_SLOTS * size }
    requires number { number < 3 }
    requires out { length out.old ≡ size }
    ensures slot { out.new ≡ parity_slot number size (slots_of DATA_SLOTS size six.now) }
    ensures bytes { EachIndex out.new (λ t. slice_index out.new t
        ≡ parity number (column (slots_of DATA_SLOTS size six.now) t)) }
{
    out.fill(0);
    // By Horner's rule, from the last data slot to the first.
    for done in 0..DATA_SLOTS as usize {
        let start = (DATA_SLOTS as usize - 1 - done) * size;
        horner_step(out, &six[start..start + size], number);
    }
}

/// Writes slot `want` of a block of which at least six slots are at hand.
///
/// `nine` holds the slots one after another, `size` bytes each; what stands in the place of a slot outside `have` has no
/// influence. A slot at hand is copied.
pub fn restore(have: Mask, nine: &[u8], size: usize, want: Slot, out: &mut [u8])
    requires nine { length nine.now ≡ 9 * size }
    requires out { length out.old ≡ size }
    requires enough { 6 ≤ length have }
    requires want { want < 9 }
    ensures restored { out.new ≡ restored have size (slots_of 9 size nine.now) want }
    ensures completes { (slots : List (List ℕ)) → AreCodeWords size slots
        → ((j : ℕ) → has_slot have j ≡ true
        → slot_at (slots_of 9 size nine.now) j ≡ slot_at slots j)
        → out.new ≡ slot_at slots want }
{
    if have.contains(want) {
        let start = want as usize * size;
        out.copy_from_slice(&nine[start..start + size]);
    } else {
        combine(nine, size, &weights(have, want), out);
    }
}
