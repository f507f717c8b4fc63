//! Where the nine slots of a block can be read.
#![tactic(auto, unfolding(qfs_model_actor::specs::Read::source_of_listed, qfs_model_actor::specs::Read::sources_of, qfs_model_actor::specs::Read::are_too_few, qfs_model_actor::specs::Read::cause_at))]

ghost use Rattle.std.specs.Prelude.{◌≡◌, ◌<◌, take, count_by, is_ok, slice_get, IfOk, Some};
ghost use Rattle.qfs_model_actor.specs.Read.{are_too_few, cause_at, causes_of};
ghost use Rattle.qfs_model_actor.specs.Read.{source_of_listed, sources_of};
ghost use Rattle.qfs_window.specs.Sources.{IsNext};

use qfs_base::chunk::Copy;
use qfs_base::listing::Listing;
use qfs_base::lists::{Cause, CauseList, SlotCause};
use qfs_base::numbers::Slot;
use qfs_base::sizes::{DATA_SLOTS, SLOTS};
use std::alloc::{AllocError, Global};

/// Where a slot can be read, or why it can't.
pub type Source = Result<Copy, Cause>;

/// Where each slot of a block can be read.
pub type Sources = [Source; SLOTS as usize];

/// Where a slot can be read, as its block is listed.
fn source_of(nine: &[Option<Copy>], slot: usize) -> Source
    ensures { result ≡ source_of_listed (slice_get nine.now slot) }
{
    match nine.get(slot) {
        Some(Some(copy)) => Ok(*copy),
        _ => Err(Cause::Unlisted),
    }
}

/// Where each slot of a block can be read, as it is listed.
pub fn sources_of(nine: &[Option<Copy>]) -> Sources
    ensures { result ≡ sources_of nine.now }
{
    [
        source_of(nine, 0),
        source_of(nine, 1),
        source_of(nine, 2),
        source_of(nine, 3),
        source_of(nine, 4),
        source_of(nine, 5),
        source_of(nine, 6),
        source_of(nine, 7),
        source_of(nine, 8),
    ]
}

/// Whether too few slots are left to read the block.
pub fn are_too_few(sources: &Sources) -> bool
    ensures { result ≡ are_too_few sources.now }
{
    sources.iter().filter(|source| source.is_ok()).count() < DATA_SLOTS as usize
}

/// Where a slot can be read.
fn source_at(sources: &Sources, slot: Slot) -> Source
    requires { slot < 9 }
    ensures { slice_get sources.now slot ≡ Some result }
{
    sources[slot as usize]
}

/// Why a slot can't be read, if it can't.
fn cause_at(slot: Slot, source: Source) -> Option<SlotCause>
    ensures { result ≡ cause_at slot source }
{
    match source {
        Ok(_) => None,
        Err(cause) => Some(SlotCause { slot, cause }),
    }
}

/// Each slot that can't be read, in order, with its cause.
pub fn causes_of(alloc: Global, sources: &Sources) -> Result<CauseList, AllocError>
    ensures { IfOk result (λ causes. causes ≡ causes_of sources.now) }
{
    let mut causes = Listing::new(alloc);
    for slot in 0..SLOTS {
        if let Some(cause) = cause_at(slot, source_at(sources, slot)) {
            causes.push(cause)?;
        }
    }
    Ok(causes)
}

/// The first slot from `slot` on that can be read, and its copy.
pub fn next_source(sources: &Sources, slot: Slot) -> (Slot, Copy)
    requires { count_by is_ok (take slot sources.now) < count_by is_ok sources.now }
    ensures { IsNext sources.now slot result.0 result.1 }
{
    for next in slot..SLOTS {
        match source_at(sources, next) {
            Ok(copy) => return (next, copy),
            Err(_) => {}
        }
    }
    unreachable!()
}
