//! The calls on a layout.

ghost use Rattle.std.specs.Prelude.{◌≡◌, ℕ, ◌+◌, ◌-◌, ◌*◌, ◌/◌, ◌^◌, ◌<◌, ◌≤◌, ◌↔◌, IsSome, IfSome, length};
ghost use Rattle.std.specs.List.{range_with_len};
ghost use Rattle.qfs_base.specs.Shape.{IsStripe, IsRowCount};
ghost use Rattle.qfs_base.specs.Layout.{row_bytes, block_bytes, blocks_of, rows_of, place_of, offset_of, blocks_touched, windows_touched, windows_of};
ghost use Rattle.qfs_base.specs.Sizes.{MOST_FILE_BYTES};
ghost use Rattle.qfs_stripe.specs.Touched.{offset_at, spot_at, first_touched, IsTouched, AreTouched, AreInOrder};

use crate::block_windows::BlockWindows;
use crate::windows::Windows;
use qfs_base::layout::{Layout, Spot};
use qfs_base::numbers::Slot;
use qfs_base::sizes::{DATA_SLOTS, MOST_ROWS};
use std::ops::Range;

/// The stripes of a row that hold the file's own bytes.
const ROW_STRIPES: u32 = DATA_SLOTS as u32;

/// The bytes of the shortest stripe, and of the longest.
const LEAST_STRIPE: u32 = 16;

const MOST_STRIPE: u32 = 65_536;

/// The calls on a layout. None of them takes memory.
pub trait LayoutCalls: Sized {
    /// The bytes of a stripe.
    ghost stripe: { Self → ℕ };

    /// The most rows of a chunk.
    ghost rows: { Self → ℕ };

    /// The layout of stripes of `s` bytes and chunks of at most `r` rows. None says that there is no
    /// such layout: `s` is to be a power of two from 16 to 65,536, and `r` from 1 to 1,024.
    fn new(s: u32, r: u32) -> Option<Self>
        ensures valid { IsSome result ↔ (IsStripe s × IsRowCount r) }
        ensures value { IfSome result (λ layout. (stripe layout ≡ s) × (rows layout ≡ r)) };

    /// The file bytes of a whole row.
    fn row_bytes(&self) -> u32
        ensures value { result ≡ row_bytes (stripe self.now) }
        ensures positive { 0 < result }
        ensures largest { result ≤ 393216 };

    /// The file bytes of a whole block.
    fn block_bytes(&self) -> u32
        ensures value { result ≡ block_bytes (stripe self.now) (rows self.now) }
        ensures positive { 0 < result }
        ensures largest { result ≤ 402653184 };

    /// How many blocks a file of `len` bytes has.
    fn blocks_of(&self, len: u32) -> u32
        ensures { result ≡ blocks_of (stripe self.now) (rows self.now) len };

    /// How many rows the chunks of block `index` have in a file of `len` bytes.
    fn rows_of(&self, len: u32, index: u32) -> u32
        requires { index < blocks_of (stripe self.now) (rows self.now) len }
        ensures { result ≡ rows_of (stripe self.now) (rows self.now) len index };

    /// Where byte `o` of a file stands. `o` is below 268,435,456.
    fn place_of(&self, o: u64) -> Spot
        requires { o < MOST_FILE_BYTES }
        ensures value { result ≡ place_of (stripe self.now) (rows self.now) o }
        ensures back { offset_at (stripe self.now) (rows self.now) result ≡ o }
        ensures slot { result.slot < DATA_SLOTS }
        ensures within { result.at < stripe self.now * rows self.now };

    /// Which byte of a file stands at byte `at` of the chunk of data slot `slot`, in block `index`.
    /// The index is below 4,194,304, the slot below 6, and `at` below the bytes of a whole chunk.
    fn offset_of(&self, index: u32, slot: Slot, at: u32) -> u64
        requires index { index < 2 ^ 22 }
        requires slot { slot < DATA_SLOTS }
        requires at { at < stripe self.now * rows self.now }
        ensures value { result ≡ offset_of (stripe self.now) (rows self.now) index slot at }
        ensures back { place_of (stripe self.now) (rows self.now) result
            ≡ spot_at (stripe self.now) index slot at };

    /// The blocks that the bytes from `from` up to `to` touch, the last of which is the last one of a
    /// file of `to` bytes.
    fn blocks_touched(&self, from: u32, to: u32) -> Range<u32>
        ensures value { range_with_len result.start (result.end - result.start)
            ≡ blocks_touched (stripe self.now) (rows self.now) from to }
        ensures first { result.start ≡ from / block_bytes (stripe self.now) (rows self.now) }
        ensures past { result.end ≡ blocks_of (stripe self.now) (rows self.now) to }
        ensures touched { from < to →
            AreTouched (stripe self.now) (rows self.now) from to result.start result.end };

    /// The windows in which the bytes from `from` up to `to` are read in block `index`, which they
    /// touch: of each aligned group of 16 rows that they touch, the rows from the first to the last
    /// that they touch. There is at least one.
    fn windows_in(&self, index: u32, from: u32, to: u32) -> BlockWindows
        requires { IsTouched (stripe self.now) (rows self.now) from to index }
        ensures value { result ≡ windows_touched (stripe self.now) (rows self.now) from to index }
        ensures some { 0 < length result }
        // They stand behind each other, from the first row that is touched on, in their block.
        ensures order { AreInOrder index (first_touched (stripe self.now) (rows self.now) from index)
            (rows self.now) result };

    /// The windows in which `count` bytes from byte `from` on are read, of a file of `len` bytes,
    /// block by block. A range is cut at the file's end. Each of the three is at most 268,435,456.
    fn windows(&self, len: u32, from: u32, count: u32) -> Windows
        requires len { len ≤ MOST_FILE_BYTES }
        requires from { from ≤ MOST_FILE_BYTES }
        requires count { count ≤ MOST_FILE_BYTES }
        ensures { result ≡ windows_of (stripe self.now) (rows self.now) len from count };
}

impl LayoutCalls for Layout {
    ghost stripe = { λ layout. layout.s };

    ghost rows = { λ layout. layout.r };

    fn new(s: u32, r: u32) -> Option<Self> {
        let is_stripe = s.is_power_of_two() && LEAST_STRIPE <= s && s <= MOST_STRIPE;
        if is_stripe && 1 <= r && r <= MOST_ROWS {
            Some(Layout { s, r })
        } else {
            None
        }
    }

    fn row_bytes(&self) -> u32 {
        ROW_STRIPES * self.s
    }

    fn block_bytes(&self) -> u32 {
        ROW_STRIPES * self.s * self.r
    }

    fn blocks_of(&self, len: u32) -> u32 {
        len.div_ceil(self.block_bytes())
    }

    fn rows_of(&self, len: u32, index: u32) -> u32 {
        let whole = self.block_bytes();
        let held = (len - index * whole).min(whole);
        held.div_ceil(self.row_bytes())
    }

    fn place_of(&self, o: u64) -> Spot {
        let o = o as u32;
        let inside = o % self.block_bytes();
        let row = inside / self.row_bytes();
        Spot {
            index: o / self.block_bytes(),
            row,
            slot: (inside / self.s % ROW_STRIPES) as Slot,
            at: row * self.s + inside % self.s,
        }
    }

    fn offset_of(&self, index: u32, slot: Slot, at: u32) -> u64 {
        let row = u64::from(at / self.s);
        let in_row = u32::from(slot) * self.s + at % self.s;
        u64::from(index) * u64::from(self.block_bytes())
            + row * u64::from(self.row_bytes())
            + u64::from(in_row)
    }

    fn blocks_touched(&self, from: u32, to: u32) -> Range<u32> {
        from / self.block_bytes()..self.blocks_of(to)
    }

    fn windows_in(&self, index: u32, from: u32, to: u32) -> BlockWindows {
        prove!(self.r <= MOST_ROWS);
        let start = index * self.block_bytes();
        let first = from.saturating_sub(start) / self.row_bytes();
        BlockWindows::of_rows(index, first, self.rows_of(to, index))
    }

    fn windows(&self, len: u32, from: u32, count: u32) -> Windows {
        Windows::between(*self, from, len.min(from + count))
    }
}
