//! The windows in which rows of one block are read.

ghost use Rattle.std.specs.Prelude.{◌≡◌, ℕ, ◌<◌, ◌≤◌, []};
ghost use Rattle.std.specs.Iterator.{YieldsFirst, item_count};
ghost use Rattle.qfs_base.specs.Layout.{windows_of_rows};
ghost use Rattle.qfs_base.specs.Sizes.{MOST_ROWS};

use qfs_base::layout::Window;
use qfs_base::sizes::WINDOW_ROWS;
use std::marker::Model;

/// Windows of a block, seen as the list of those that are left: of each aligned group of 16 rows
/// that a range touches, in order, the rows from the first to the last that it touches. It takes no
/// memory.
#[derive(Drop)]
pub struct BlockWindows {
    index: u32,
    first: u32,
    past: u32,
    group: u32,
}

impl Model for BlockWindows {
    ghost use Rattle.std.specs.Prelude.{List};
    ghost use Rattle.qfs_base.specs.declared.layout.Window.{Window};

    ghost Value = { List Window };

    ghost use Rattle.qfs_stripe.specs.BlockWindows.{left_in_block, IsInBlock};

    ghost view = { left_in_block };

    ghost invariant = { IsInBlock };
}

impl BlockWindows {
    /// No windows.
    pub fn none() -> BlockWindows
        ensures { result ≡ [] }
    {
        BlockWindows {
            index: 0,
            first: 0,
            past: 1,
            group: 1,
        }
    }

    /// The windows of the rows of block `index` from `first` up to `past`.
    pub(crate) fn of_rows(index: u32, first: u32, past: u32) -> BlockWindows
        requires some { first < past }
        requires most { past ≤ MOST_ROWS }
        ensures { result ≡ windows_of_rows index first past }
    {
        BlockWindows {
            index,
            first,
            past,
            group: first / WINDOW_ROWS,
        }
    }
}

impl Iterator for BlockWindows {
    type Item = Window;

    ghost next_gives = { YieldsFirst (λ rest. rest) };

    ghost remaining = { item_count (λ rest. rest) };

    fn next(&mut self) -> Option<Window> {
        let start = self.group * WINDOW_ROWS;
        if start >= self.past {
            return None;
        }
        self.group += 1;
        let first_row = self.first.max(start);
        let end = self.past.min(start + WINDOW_ROWS);
        Some(Window {
            index: self.index,
            first_row,
            rows: end - first_row,
        })
    }
}
