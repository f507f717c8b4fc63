//! What the slots of a block count in one another.
//!
//! A code word meets three equations, one for each parity slot, and so each combination of them. A slot that isn't at hand
//! is told by a combination in which it counts 1 and the others that aren't at hand count 0.

ghost use Rattle.std.specs.Prelude.{◌≡◌, ◌<◌, ◌≤◌, length, false};
ghost use Rattle.qfs_base.specs.Mask.{IsMask, has_slot};
ghost use Rattle.qfs_model_slot.specs.Restored.{combination, counts_of, equation, is_spare, last_besides, left_out, weight, weights, without_slots};

use crate::combine::dot;
use qfs_base::mask::Mask;
use qfs_base::numbers::Slot;
use qfs_base::sizes::{DATA_SLOTS, SLOTS};
use qfs_galois::{inv, mul, pow2};

/// What each slot counts in slot `want`, which isn't at hand: nothing where it isn't at hand itself.
pub fn weights(have: Mask, want: Slot) -> [u8; 9]
    requires mask { IsMask have }
    requires enough { DATA_SLOTS ≤ length have }
    requires want { want < SLOTS }
    requires missing { has_slot have want ≡ false }
    ensures { result ≡ weights have want }
{
    let equation = equation(have, want);
    let mut weights = [0; 9];
    for slot in 0..SLOTS {
        weights[slot as usize] = weight(have, &equation, slot);
    }
    weights
}

/// What a slot counts in the wanted one by its equation: nothing where it isn't at hand.
#[tactic(auto, unfolding(qfs_model_slot::specs::Restored::weight))]
fn weight(have: Mask, equation: &[u8; 3], slot: Slot) -> u8
    requires { slot < SLOTS }
    ensures { result ≡ weight have equation.now slot }
{
    if have.contains(slot) {
        dot(equation, &counts_of(slot))
    } else {
        0
    }
}

/// The combination of the three equations in which slot `want` counts 1 and each other slot that isn't at hand counts 0.
#[tactic(auto, unfolding(qfs_model_slot::specs::Restored::combination, qfs_model_slot::specs::Restored::equation, qfs_model_slot::specs::Restored::scaled_to, qfs_model_slot::specs::Restored::cross, qfs_model_slot::specs::Restored::without_slots))]
fn equation(have: Mask, want: Slot) -> [u8; 3]
    requires mask { IsMask have }
    requires enough { DATA_SLOTS ≤ length have }
    requires want { want < SLOTS }
    requires missing { has_slot have want ≡ false }
    ensures { result ≡ equation have want }
{
    let first = left_out(have, want, want);
    let combination = without_slots(first, left_out(have, want, first));
    let scale = inv(dot(&combination, &counts_of(want)));
    [
        mul(scale, combination[0]),
        mul(scale, combination[1]),
        mul(scale, combination[2]),
    ]
}

/// A combination of the three equations from which slots `b` and `c` drop out.
#[tactic(auto, unfolding(qfs_model_slot::specs::Restored::minor, qfs_model_slot::specs::Restored::cross, qfs_model_slot::specs::Restored::without_slots))]
fn without_slots(b: Slot, c: Slot) -> [u8; 3]
    requires b { b < SLOTS }
    requires c { c < SLOTS }
    ensures { result ≡ without_slots b c }
{
    let b = counts_of(b);
    let c = counts_of(c);
    [
        mul(b[1], c[2]) ^ mul(b[2], c[1]),
        mul(b[0], c[2]) ^ mul(b[2], c[0]),
        mul(b[0], c[1]) ^ mul(b[1], c[0]),
    ]
}

/// What a slot counts in the equations of the three parity slots.
#[tactic(auto, unfolding(qfs_model_slot::specs::Restored::counts_of, qfs_model_slot::specs::Restored::counts))]
fn counts_of(slot: Slot) -> [u8; 3]
    requires { slot < SLOTS }
    ensures { result ≡ counts_of slot }
{
    if slot < DATA_SLOTS {
        [1, pow2(u32::from(slot)), pow2(2 * u32::from(slot))]
    } else {
        [
            u8::from(slot == 6),
            u8::from(slot == 7),
            u8::from(slot == 8),
        ]
    }
}

/// One more slot to leave out beside slots `want` and `other`: the first that isn't at hand, or the last where each is.
#[tactic(auto, unfolding(qfs_model_slot::specs::Restored::left_out))]
fn left_out(have: Mask, want: Slot, other: Slot) -> Slot
    ensures value { result ≡ left_out have want other }
    ensures slot { result < SLOTS }
{
    for slot in 0..SLOTS {
        if is_spare(have, want, other, slot) {
            return slot;
        }
    }
    last_besides(want, other)
}

/// Whether a slot is neither `want` nor `other`, and isn't at hand.
#[tactic(auto, unfolding(qfs_model_slot::specs::Restored::is_spare))]
fn is_spare(have: Mask, want: Slot, other: Slot, slot: Slot) -> bool
    ensures { result ≡ is_spare have want other slot }
{
    slot != want && slot != other && !have.contains(slot)
}

/// The last slot that is neither `want` nor `other`.
#[tactic(auto, unfolding(qfs_model_slot::specs::Restored::last_besides))]
fn last_besides(want: Slot, other: Slot) -> Slot
    ensures value { result ≡ last_besides want other }
    ensures slot { result < SLOTS }
{
    if want != 8 && other != 8 {
        8
    } else if want != 7 && other != 7 {
        7
    } else {
        6
    }
}
