//! How a file is dealt over blocks, rows and slots.

use crate::numbers::Slot;
use std::marker::Model;

/// The shape of every file of a script: a chunk has up to `r` rows of a stripe of `s` bytes, and a
/// block is six data chunks and three parity chunks beside them.
#[derive(Clone, Copy, PartialEq, Eq)]
pub struct Layout {
    /// The bytes of a stripe: a power of two from 16 to 65,536.
    pub s: u32,
    /// The most rows of a chunk: 1 to 1,024.
    pub r: u32,
}

impl Model for Layout {
    ghost use Rattle.qfs_base.specs.Shape.{Shape, IsStripe, IsRowCount};

    ghost Value = { Shape };

    ghost view = { λ layout. record { s = layout.s; r = layout.r } };

    ghost invariant = { λ layout. IsStripe layout.s × IsRowCount layout.r };

    ghost inverse = { λ shape. record { s = shape.s; r = shape.r } };
}

/// Where a byte of a file stands: in the chunk of `slot` of block `index`, at the byte `at` of that
/// chunk, which is in `row`.
#[derive(Clone, Copy, PartialEq, Eq)]
pub struct Spot {
    pub index: u32,
    pub row: u32,
    pub slot: Slot,
    pub at: u32,
}

/// Rows of a block that are read together: `rows` of them from `first_row` on, all in one aligned
/// group of 16.
#[derive(Clone, Copy, PartialEq, Eq)]
pub struct Window {
    pub index: u32,
    pub first_row: u32,
    pub rows: u32,
}
