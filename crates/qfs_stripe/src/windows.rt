//! The windows in which a range of a file is read.

ghost use Rattle.std.specs.Prelude.{◌≡◌, ◌++◌};
ghost use Rattle.std.specs.Iterator.{YieldsFirst, item_count};
ghost use Rattle.qfs_stripe.specs.Touched.{windows_between};

use crate::block_windows::BlockWindows;
use crate::layout::LayoutCalls;
use qfs_base::layout::{Layout, Window};
use std::marker::Model;

/// The windows of a range, seen as the list of those that are left: block by block, those in which
/// the rows of the block that it touches are read. It takes no memory.
#[derive(Drop)]
pub struct Windows {
    layout: Layout,
    from: u32,
    to: u32,
    /// The windows that are left of the present block.
    present: BlockWindows,
    /// The blocks that are left behind it, up to `past`.
    block: u32,
    past: u32,
}

impl Model for Windows {
    ghost use Rattle.std.specs.Prelude.{List};
    ghost use Rattle.qfs_base.specs.declared.layout.Window.{Window};

    ghost Value = { List Window };

    ghost use Rattle.qfs_stripe.specs.Windows.{windows_left, IsInRange};

    ghost view = { windows_left };

    ghost invariant = { IsInRange };
}

impl Windows {
    /// The windows of the bytes from `from` up to `to`.
    pub(crate) fn between(layout: Layout, from: u32, to: u32) -> Windows
        ensures { result ≡ windows_between layout.s layout.r from to }
    {
        let blocks = if from < to {
            layout.blocks_touched(from, to)
        } else {
            0..0
        };
        Windows {
            layout,
            from,
            to,
            present: BlockWindows::none(),
            block: blocks.start,
            past: blocks.end,
        }
    }
}

impl Iterator for Windows {
    type Item = Window;

    ghost next_gives = { YieldsFirst (λ rest. rest) };

    ghost remaining = { item_count (λ rest. rest) };

    fn next(&mut self) -> Option<Window> {
        if let Some(window) = self.present.next() {
            return Some(window);
        }
        if self.block >= self.past {
            return None;
        }
        self.present = self.layout.windows_in(self.block, self.from, self.to);
        self.block += 1;
        self.present.next()
    }
}
