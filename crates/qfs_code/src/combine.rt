//! Sums of slots, each times a number.

ghost use Rattle.std.specs.Prelude.{◌≡◌, ◌*◌, length};
ghost use Rattle.qfs_model_slot.specs.Restored.{dot, weighed};
ghost use Rattle.qfs_code.specs.Code.{slots_of};

use qfs_galois::{add_scaled, mul};

/// Writes the sum of the slots, each times its weight. They stand one after another in `slots`, `size` bytes each.
pub fn combine(slots: &[u8], size: usize, weights: &[u8], out: &mut [u8])
    requires slots { length slots.now ≡ length weights.now * size }
    requires out { length out.old ≡ size }
    ensures { out.new ≡ weighed weights.now size (slots_of (length weights.now) size slots.now) }
{
    out.fill(0);
    for j in 0..weights.len() {
        let start = j * size;
        add_scaled(out, &slots[start..start + size], weights[j]);
    }
}

/// The sum of the products of the bytes at the same places.
pub fn dot(xs: &[u8], ys: &[u8]) -> u8
    requires { length xs.now ≡ length ys.now }
    ensures { result ≡ dot xs.now ys.now }
{
    let mut sum = 0;
    for i in 0..xs.len() {
        sum ^= mul(xs[i], ys[i]);
    }
    sum
}
