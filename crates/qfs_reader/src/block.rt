//! How a get goes from window to window and from block to block.
#![tactic(auto, unfolding(crate::specs::Rest::rest_of_get, crate::specs::Rest::report_of_get, qfs_model_actor::specs::Get::reading_of))]

ghost use Rattle.std.specs.Prelude.{◌≡◌, ◌*◌, ◌/◌, ◌≤◌, ◌∷◌, length, false};
ghost use Rattle.qfs_base.specs.Layout.{block_bytes};
ghost use Rattle.qfs_model_actor.specs.Get.{listed_in};
ghost use Rattle.qfs_model_actor.specs.Read.{are_too_few, sources_of};
ghost use Rattle.qfs_reader.specs.Rest.{rest_of_blocks, rest_of_get, rest_of_read_window};
ghost use Rattle.qfs_reader.specs.Rest.{rest_of_windows, rest_if_too_few};
ghost use Rattle.qfs_reader.specs.ReaderState.{IsAtWindow, IsBefore, IsGetStage, IsInWindow};
ghost use Rattle.qfs_reader.specs.ReaderState.{IsReadRange, HasWindowRoom};
ghost use Rattle.qfs_reader.specs.Parts.{AreBelow};

use crate::parts::add_window;
use crate::sources::{Sources, are_too_few, next_source, sources_of};
use crate::stage::{Attempt, Get, GetEnding, Position, Stage};
use crate::window::{stripe, window_offset};
use qfs_base::layout::Window;
use qfs_base::mask::Mask;
use qfs_base::reply::Opened;
use qfs_stripe::{BlockWindows, LayoutCalls};

/// The stage of a get at a window of a block, of which enough slots can be read.
fn begin_window(
    get: &Get,
    attempt: Attempt,
    block: u32,
    window: Window,
    windows: BlockWindows,
    sources: Sources,
) -> Stage
    requires window { IsAtWindow get.now attempt block window windows }
    requires enough { are_too_few sources ≡ false }
    ensures rest { rest_of_get get.now result
        ≡ rest_of_windows get.now attempt block (window ∷ windows) sources attempt.got }
    ensures at { IsGetStage get.now result }
{
    let _ = get;
    let (slot, copy) = next_source(&sources, 0);
    let position = Position {
        block,
        window,
        windows,
        sources,
        slot,
        copy,
        have: Mask::none(),
    };
    Stage::Reading(attempt, position)
}

/// Where the slots of a block can be read, as its copies are listed.
fn sources_in(opened: &Opened, block: u32) -> Sources
    ensures { result ≡ sources_of (listed_in opened.now block) }
{
    match opened.blocks.get(block as usize) {
        Some(nine) => sources_of(nine.as_slice()),
        None => sources_of(&[]),
    }
}

/// The stage of a get that has read its file up to a block.
pub fn next_block(get: &Get, attempt: Attempt, block: u32) -> Stage
    requires range { IsReadRange attempt.from attempt.to }
    requires first { attempt.from / block_bytes get.now.layout.s get.now.layout.r ≤ block }
    requires got { IsBefore attempt (block * block_bytes get.now.layout.s get.now.layout.r) }
    ensures rest { rest_of_get get.now result ≡ rest_of_blocks get.now attempt block attempt.got }
    ensures at { IsGetStage get.now result }
{
    let blocks = get.layout.blocks_touched(attempt.from, attempt.to);
    if block >= blocks.end {
        let Attempt { opened, got, .. } = attempt;
        let ending = GetEnding::Read {
            place: opened.place,
            got,
        };
        return Stage::Releasing(opened.lease, ending, None);
    }
    let sources = sources_in(&attempt.opened, block);
    if are_too_few(&sources) {
        return too_few(get, attempt, block, sources);
    }
    let mut windows = get.layout.windows_in(block, attempt.from, attempt.to);
    match windows.next() {
        Some(window) => begin_window(get, attempt, block, window, windows, sources),
        None => unreachable!(),
    }
}

/// The stage of a get that finds too few slots of a block: it opens its file again where an attempt
/// is left, and nothing is kept of what it read.
pub fn too_few(get: &Get, attempt: Attempt, block: u32, sources: Sources) -> Stage
    ensures rest { rest_of_get get.now result ≡ rest_if_too_few get.now attempt block sources }
    ensures at { IsGetStage get.now result }
{
    let _ = get;
    let lease = attempt.opened.lease;
    if attempt.more > 0 {
        return Stage::Retrying {
            lease,
            more: attempt.more - 1,
        };
    }
    let ending = GetEnding::TooFew {
        place: attempt.opened.place,
        block,
        sources,
    };
    Stage::Releasing(lease, ending, None)
}

/// The stage of a get that has six pieces of its window.
pub fn window_read(get: &Get, attempt: Attempt, position: Position) -> Stage
    requires window { IsInWindow get.now attempt position }
    requires enough { are_too_few position.sources ≡ false }
    requires have { 6 ≤ length position.have }
    requires below { AreBelow 9 position.have }
    requires room { HasWindowRoom get.now attempt position.window }
    ensures rest { rest_of_get get.now result ≡ rest_of_read_window get.now attempt position }
    ensures at { IsGetStage get.now result }
{
    let mut attempt = attempt;
    let start = window_offset(&get.layout, &position.window);
    add_window(
        attempt.nine.as_mut_slice(),
        attempt.spare.as_mut_slice(),
        position.have,
        stripe(&get.layout) as usize,
        position.window.rows as usize,
        attempt.from,
        attempt.to,
        start,
        &mut attempt.got,
    );
    let Position {
        block,
        mut windows,
        sources,
        ..
    } = position;
    match windows.next() {
        Some(window) => begin_window(get, attempt, block, window, windows, sources),
        None => next_block(get, attempt, block + 1),
    }
}
