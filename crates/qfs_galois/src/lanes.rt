//! Sixteen bytes at a time.

ghost use Rattle.std.specs.Prelude.{◌≡◌, ◌+◌, ◌<◌, ◌≤◌, ℕ, length, map};
ghost use Rattle.qfs_galois.specs.Field.{product, power};
ghost use Rattle.qfs_galois.specs.Lanes.{IsTable, IsScaled};
ghost use lib.Lanes.{chunk, put_chunk};

use crate::mul;
use std::simd::prelude::*;

/// The 16 bytes from `at` on.
#[inline(always)]
pub(crate) fn loaded(bytes: &[u8], at: usize) -> u8x16
    requires { at + 16 ≤ length bytes.now }
    ensures { result ≡ chunk at 16 bytes.now }
{
    u8x16::from_slice(&bytes[at..])
}

/// Writes 16 bytes from `at` on.
#[inline(always)]
pub(crate) fn store(bytes: &mut [u8], at: usize, lanes: u8x16)
    requires { at + 16 ≤ length bytes.old }
    ensures { bytes.new ≡ put_chunk at bytes.old lanes }
{
    lanes.copy_to_slice(&mut bytes[at..]);
}

/// The product of 2 and each lane.
#[inline(always)]
fn double_lanes(x: u8x16) -> u8x16
    ensures { result ≡ map (product 2) x }
{
    (x + x)
        ^ x.simd_ge(u8x16::splat(128))
            .select(u8x16::splat(0x1d), u8x16::splat(0))
}

/// The product of 2^`number` and each lane.
#[inline(always)]
pub(crate) fn times_power_lanes(x: u8x16, number: u8) -> u8x16
    requires { number < 3 }
    ensures { result ≡ map (product (power 2 number)) x }
{
    if number == 0 {
        return x;
    }
    if number == 1 {
        return double_lanes(x);
    }
    double_lanes(double_lanes(x))
}

/// The products of `c` with 16 multiples of `step`, which is at most 16.
pub(crate) fn table(c: u8, step: u8) -> u8x16
    requires { step < 17 }
    ensures { IsTable c step result }
{
    let mut entries = [0; 16];
    for j in 0..16u8 {
        entries[j as usize] = mul(c, j * step);
    }
    u8x16::from_array(entries)
}

/// Each lane times c, by the tables of c: a byte is the sum of its low and its high half.
#[inline(always)]
pub(crate) fn scaled(x: u8x16, lows: u8x16, highs: u8x16) -> u8x16
    ensures { (c : ℕ) → IsTable c 1 lows → IsTable c 16 highs → IsScaled c x result }
{
    lows.swizzle_dyn(x & u8x16::splat(15)) ^ highs.swizzle_dyn(x >> u8x16::splat(4))
}
