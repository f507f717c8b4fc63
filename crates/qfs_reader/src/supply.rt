//! The memory that a get takes before each of its requests.
#![tactic(auto, unfolding(crate::specs::Rest::rest_of_get, crate::specs::Rest::report_of_get, qfs_model_actor::specs::Shown::shown_reply))]

ghost use Rattle.std.specs.Prelude.{◌≡◌, ◌≤◌, length, IfOk, OnErr, OnOk};
ghost use Rattle.qfs_reader.specs.Rest.{rest_of_get};
ghost use Rattle.qfs_reader.specs.ReaderState.{IsGetStage, IsKeptOf, IsRoom, IsSupplied};

use crate::sources::causes_of;
use crate::stage::{Get, GetEnding, Stage};
use crate::window::window_bytes;
use qfs_base::command::{Excerpt, Reply};
use qfs_base::sizes::SLOTS;
use std::alloc::{AllocError, Global};

/// So many zeros.
fn room(alloc: Global, len: usize) -> Result<Vec<u8>, AllocError>
    ensures { IfOk result (λ room. length room.items ≡ len) }
{
    vec![in alloc; 0; len]
}

/// Takes room for nine parts of `size` bytes and one more, unless it is there.
fn make_room(
    alloc: Global,
    size: usize,
    nine: &mut Vec<u8>,
    spare: &mut Vec<u8>,
) -> Result<(), AllocError>
    requires { size ≤ 1048576 }
    ensures ok { OnOk result (IsRoom size nine.new.items spare.new.items) }
    ensures there { IsRoom size nine.old.items spare.old.items
        → (nine.new ≡ nine.old) × (spare.new ≡ spare.old) }
    ensures err { OnErr result ((nine.new ≡ nine.old) × (spare.new ≡ spare.old)) }
{
    let all = SLOTS as usize * size;
    if nine.len() != all || spare.len() != size {
        let parts = room(alloc, all)?;
        let part = room(alloc, size)?;
        *nine = parts;
        *spare = part;
    }
    Ok(())
}

/// The report of a get that ends so, as it is kept.
fn report(alloc: Global, ending: &GetEnding) -> Result<Reply<Excerpt>, AllocError>
    ensures { IfOk result (IsKeptOf ending.now) }
{
    match ending {
        GetEnding::Read { place, got } => {
            let read = got.excerpt(alloc)?;
            Ok(Reply::Read {
                place: *place,
                read,
            })
        }
        GetEnding::TooFew {
            place,
            block,
            sources,
        } => {
            let causes = causes_of(alloc, sources)?;
            Ok(Reply::ReadTooFew {
                place: *place,
                index: *block,
                causes,
            })
        }
        GetEnding::Refused { place, refusal } => Ok(Reply::Refused {
            place: *place,
            refusal: *refusal,
        }),
        GetEnding::Common(ending) => Ok(ending.into_reply()),
    }
}

/// Takes the memory for the reply to a stage's request: room for the bytes of a slot, or the report
/// that the get ends with.
pub fn supply(alloc: Global, get: &Get, stage: &mut Stage) -> Result<(), AllocError>
    requires { IsGetStage get.now stage.old }
    ensures rest { rest_of_get get.now stage.new ≡ rest_of_get get.now stage.old }
    ensures at { IsGetStage get.now stage.new }
    ensures supplied { OnOk result (IsSupplied get.now stage.new) }
{
    match stage {
        Stage::Reading(attempt, position) => {
            let size = window_bytes(&get.layout, &position.window);
            make_room(alloc, size, &mut attempt.nine, &mut attempt.spare)
        }
        Stage::Releasing(_, ending, kept) => {
            let made = report(alloc, ending)?;
            *kept = Some(made);
            Ok(())
        }
        _ => Ok(()),
    }
}
