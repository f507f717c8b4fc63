//! Puts the image of a metaserver's state at the end of bytes.
ghost use Rattle.std.specs.Prelude.{◌≡◌, ◌++◌, OnOk, OnErr};
ghost use Rattle.qfs_image.specs.Kept.{later_lists, set_state};
ghost use Rattle.qfs_model_disks.specs.Image.{counters, image};
ghost use Rattle.qfs_spelling.specs.Fronts.{Extends};

use qfs_base::image::MetaImage;
use qfs_record::{put_u32, put_u64};
use qfs_spelling::Spelled;
use std::alloc::AllocError;

/// Puts an image at the end of `out`: its counters, and its eight lists. The lists keep their
/// orders, fit together as those of a metaserver do, and have fewer than 2^32 rows each. On want of
/// memory `out` stays as it was.
pub fn write_image(state: &MetaImage, out: &mut Vec<u8>) -> Result<(), AllocError>
    requires { image.Fits state.now }
    ensures ok { OnOk result (out.new.items ≡ out.old.items ++ image.text state.now) }
    ensures err { OnErr result (out.new.items ≡ out.old.items) }
{
    let start = out.len();
    let written = put_state(state, out);
    if written.is_err() {
        out.truncate(start);
    }
    written
}

/// Puts counters and lists.
fn put_state(state: &MetaImage, out: &mut Vec<u8>) -> Result<(), AllocError>
    requires { set_state.Fits state.now }
    ensures ok { OnOk result (out.new.items ≡ out.old.items ++ set_state.text state.now) }
    ensures err { OnErr result (Extends out.old.items out.new.items) }
{
    put_counters(state, out)?;
    state.servers.put(out)?;
    state.tree.put(out)?;
    state.slots.put(out)?;
    put_later_lists(state, out)
}

/// Puts turn, clock, and the next file, lease and condemned copy.
fn put_counters(state: &MetaImage, out: &mut Vec<u8>) -> Result<(), AllocError>
    ensures ok { OnOk result (out.new.items
        ≡ out.old.items ++ counters.text (
          state.now.turn,
          (
            state.now.clock,
            (state.now.next_file, (state.now.next_lease, state.now.next_condemned)),
          ),
        )) }
    ensures err { OnErr result (Extends out.old.items out.new.items) }
{
    put_u64(state.turn, out)?;
    put_u64(state.clock, out)?;
    put_u32(state.next_file, out)?;
    put_u64(state.next_lease, out)?;
    put_u64(state.next_condemned, out)
}

/// Puts leases, condemned copies, dropped actors and the file history.
fn put_later_lists(state: &MetaImage, out: &mut Vec<u8>) -> Result<(), AllocError>
    requires { later_lists.Fits
        (state.now.leases, (state.now.condemned, (state.now.dropped, state.now.history))) }
    ensures ok { OnOk result (out.new.items
        ≡ out.old.items ++ later_lists.text
        (state.now.leases, (state.now.condemned, (state.now.dropped, state.now.history)))) }
    ensures err { OnErr result (Extends out.old.items out.new.items) }
{
    state.leases.put(out)?;
    state.condemned.put(out)?;
    state.dropped.put(out)?;
    state.history.put(out)
}
