//! Sums of many bytes at once: lanes of sixteen as far as they go, and then byte after byte.

ghost use Rattle.std.specs.Prelude.{◌≡◌, ◌≤◌, ◌+◌, ◌<◌, ℕ, List, length, bit_xor, slice_index, EachIndex};
ghost use Rattle.qfs_galois.specs.Field.{product, power};
ghost use Rattle.qfs_galois.specs.Lanes.{IsTable, IsWritten, added, scaled_sum, stepped};

use crate::lanes::{loaded, scaled, store, table, times_power_lanes};
use crate::{mul, times_power};
use std::simd::prelude::*;

/// From so many bytes on, two tables cost less than the products of the bytes.
const TABLES_PAY: usize = 64;

/// Adds `c` times each byte of `src` to the byte of `dst` at the same place.
pub fn add_scaled(dst: &mut [u8], src: &[u8], c: u8)
    requires { length dst.old ≡ length src.now }
    ensures { EachIndex dst.new (λ i. slice_index dst.new i
        ≡ bit_xor (slice_index dst.old i) (product c (slice_index src.now i))) }
{
    if c == 1 {
        add(dst, src);
    } else if c != 0 {
        let done = add_by_tables(dst, src, c);
        for i in done..src.len() {
            // The digits of `c` are the same for each byte, so the compiler takes many bytes at once.
            dst[i] ^= mul(src[i], c);
        }
    }
}

/// Adds `c` times as many bytes of `src` as are whole lanes, if tables pay for so many, and says how
/// many these are.
fn add_by_tables(dst: &mut [u8], src: &[u8], c: u8) -> usize
    requires { length dst.old ≡ length src.now }
    ensures bytes { IsWritten (scaled_sum c dst.old src.now) dst.old dst.new result }
    ensures within { result ≤ length src.now }
{
    if src.len() < TABLES_PAY {
        return 0;
    }
    let lows = table(c, 1);
    let highs = table(c, 16);
    for k in 0..src.len() / 16 {
        add_scaled_at(dst, src, k * 16, lows, highs);
    }
    src.len() / 16 * 16
}

/// Adds the multiples of 16 bytes.
#[inline(always)]
fn add_scaled_at(dst: &mut [u8], src: &[u8], at: usize, lows: u8x16, highs: u8x16)
    requires dst { at + 16 ≤ length dst.old }
    requires src { at + 16 ≤ length src.now }
    ensures { (c : ℕ) (was : List ℕ) → IsTable c 1 lows → IsTable c 16 highs
        → IsWritten (scaled_sum c was src.now) was dst.old at
        → IsWritten (scaled_sum c was src.now) was dst.new (at + 16) }
{
    let sum = loaded(dst, at) ^ scaled(loaded(src, at), lows, highs);
    store(dst, at, sum);
}

/// Adds each byte of `src` to the byte of `dst` at the same place.
fn add(dst: &mut [u8], src: &[u8])
    requires { length dst.old ≡ length src.now }
    ensures { EachIndex dst.new (λ i. slice_index dst.new i
        ≡ bit_xor (slice_index dst.old i) (slice_index src.now i)) }
{
    for k in 0..src.len() / 16 {
        add_at(dst, src, k * 16);
    }
    for i in src.len() / 16 * 16..src.len() {
        dst[i] ^= src[i];
    }
}

/// Adds 16 bytes.
#[inline(always)]
fn add_at(dst: &mut [u8], src: &[u8], at: usize)
    requires dst { at + 16 ≤ length dst.old }
    requires src { at + 16 ≤ length src.now }
    ensures { (was : List ℕ) → IsWritten (added was src.now) was dst.old at
        → IsWritten (added was src.now) was dst.new (at + 16) }
{
    let sum = loaded(dst, at) ^ loaded(src, at);
    store(dst, at, sum);
}

/// Each byte of `sums` becomes 2^`number` times itself, plus the byte of `part` at the same place: a step of Horner's rule
/// for a sum of products with the powers of 2^`number`, from the highest power down. `number` is below 3.
pub fn horner_step(sums: &mut [u8], part: &[u8], number: u8)
    requires len { length sums.old ≡ length part.now }
    requires number { number < 3 }
    ensures { EachIndex sums.new (λ i. slice_index sums.new i
        ≡ bit_xor (product (power 2 number) (slice_index sums.old i)) (slice_index part.now i)) }
{
    for k in 0..part.len() / 16 {
        step_at(sums, part, k * 16, number);
    }
    for i in part.len() / 16 * 16..part.len() {
        sums[i] = times_power(sums[i], number) ^ part[i];
    }
}

/// Takes the step of 16 bytes.
#[inline(always)]
fn step_at(sums: &mut [u8], part: &[u8], at: usize, number: u8)
    requires sums { at + 16 ≤ length sums.old }
    requires part { at + 16 ≤ length part.now }
    requires number { number < 3 }
    ensures { (was : List ℕ) → IsWritten (stepped (power 2 number) was part.now) was sums.old at
        → IsWritten (stepped (power 2 number) was part.now) was sums.new (at + 16) }
{
    let next = times_power_lanes(loaded(sums, at), number) ^ loaded(part, at);
    store(sums, at, next);
}
