//! Where the bytes of a window stand, and how many they are.

ghost use Rattle.std.specs.Prelude.{◌≡◌, ◌+◌, ◌*◌, ◌^◌, ◌<◌, ◌≤◌};
ghost use Rattle.qfs_base.specs.Layout.{block_bytes, row_bytes};
ghost use Rattle.qfs_base.specs.Sizes.{WINDOW_ROWS, MOST_FILE_BYTES};
ghost use Rattle.qfs_model_actor.specs.Windows.{window_offset};
ghost use Rattle.qfs_reader.specs.Rest.{window_bytes};

use qfs_base::layout::Window;
use qfs_stripe::{Layout, LayoutCalls};

/// The bytes of a stripe.
pub fn stripe(layout: &Layout) -> u32
    ensures value { result ≡ layout.now.s }
    ensures most { result ≤ 65536 }
{
    layout.s
}

/// How many bytes a slot gives in a window.
pub fn window_bytes(layout: &Layout, window: &Window) -> usize
    requires { window.now.rows ≤ WINDOW_ROWS }
    ensures value { result ≡ window_bytes layout.now window.now }
    ensures most { result ≤ 1048576 }
{
    window.rows as usize * layout.s as usize
}

/// Which byte of its chunk a slot gives first in a window.
pub fn first_byte(layout: &Layout, window: &Window) -> u32
    requires { window.now.first_row ≤ layout.now.r }
    ensures { result ≡ window.now.first_row * layout.now.s }
{
    window.first_row * layout.s
}

/// Which byte of its file a window begins with.
#[tactic(auto, unfolding(qfs_model_actor::specs::Windows::window_offset))]
pub fn window_offset(layout: &Layout, window: &Window) -> u32
    requires start { window.now.index * block_bytes layout.now.s layout.now.r < MOST_FILE_BYTES }
    requires within { window.now.first_row + window.now.rows ≤ layout.now.r }
    ensures value { result ≡ window_offset layout.now window.now }
    ensures fits { result + window.now.rows * row_bytes layout.now.s < 2 ^ 32 }
{
    window.index * layout.block_bytes() + window.first_row * layout.row_bytes()
}
