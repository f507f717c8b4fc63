//! How a get goes on when the metaserver has answered.
#![tactic(auto, unfolding(crate::specs::Rest::rest_of_get, crate::specs::Rest::report_of_get, qfs_machine::specs::Endings::report_of_ending, qfs_model_actor::specs::Get::is_whole, qfs_model_actor::specs::Get::read_if_whole, qfs_model_actor::specs::Get::was_opened, qfs_model_actor::specs::Hold::was_released, qfs_model_actor::specs::Shown::shown_reply, qfs_model_actor::specs::Tree::refused))]

ghost use Rattle.std.specs.Prelude.{◌≡◌, ◌≤◌};
ghost use Rattle.qfs_base.specs.Sizes.{MOST_FILE_BYTES};
ghost use Rattle.qfs_model_actor.specs.Get.{is_whole};
ghost use Rattle.qfs_model_actor.specs.Hold.{was_released};
ghost use Rattle.qfs_reader.specs.Rest.{after_opening, on_opening, on_release};
ghost use Rattle.qfs_reader.specs.Rest.{rest_if_whole, rest_of_get, rest_of_whole};
ghost use Rattle.qfs_reader.specs.ReaderState.{IsGetStage};

use crate::block::next_block;
use crate::fetch::ended;
use crate::read_so_far::ReadSoFar;
use crate::stage::{Attempt, Get, GetEnding, Stage};
use qfs_base::command::Reply;
use qfs_base::reply::{MetaReply, Opened};
use qfs_base::sizes::MOST_FILE_BYTES;
use qfs_machine::Ending;
use qfs_stripe::{Layout, LayoutCalls};
use std::alloc::Global;

/// Whether a file's length is in its range, and each of its blocks has its list.
fn is_whole(layout: &Layout, opened: &Opened) -> bool
    ensures { result ≡ is_whole layout.now opened.now }
{
    opened.len <= MOST_FILE_BYTES && opened.blocks.len() == layout.blocks_of(opened.len) as usize
}

/// The stage of a get whose file is open and whole.
fn read(alloc: Global, get: &Get, more: u32, opened: Opened) -> Stage
    requires { opened.len ≤ MOST_FILE_BYTES }
    ensures rest { rest_of_get get.now result ≡ rest_of_whole get.now more opened }
    ensures at { IsGetStage get.now result }
{
    let from = get.range.from;
    let to = from.saturating_add(get.range.count).min(opened.len);
    if from >= to {
        let ending = GetEnding::Read {
            place: opened.place,
            got: ReadSoFar::nothing(),
        };
        return Stage::Releasing(opened.lease, ending, None);
    }
    let attempt = Attempt {
        opened,
        from,
        to,
        more,
        got: ReadSoFar::nothing(),
        nine: Vec::new(alloc),
        spare: Vec::new(alloc),
    };
    let blocks = get.layout.blocks_touched(from, to);
    next_block(get, attempt, blocks.start)
}

/// The stage of a get at an answer that opens its file.
fn open(alloc: Global, get: &Get, more: u32, opened: Opened) -> Stage
    ensures rest { rest_of_get get.now result ≡ rest_if_whole get.now more opened }
    ensures at { IsGetStage get.now result }
{
    if is_whole(&get.layout, &opened) {
        read(alloc, get, more, opened)
    } else {
        ended(Ending::Unnamed)
    }
}

/// The stage of a get at an answer to its request for the file that doesn't end every command.
fn opened_or_refused(alloc: Global, get: &Get, more: u32, answer: MetaReply) -> Stage
    ensures rest { rest_of_get get.now result ≡ after_opening get.now more answer }
    ensures at { IsGetStage get.now result }
{
    match answer {
        MetaReply::Opened(opened) => open(alloc, get, more, opened),
        MetaReply::Refused { refusal, place } => Stage::Ended(
            GetEnding::Refused { place, refusal },
            Reply::Refused { place, refusal },
        ),
        _ => ended(Ending::Unnamed),
    }
}

/// The stage of a get at the answer to its request for the file, where so many attempts may follow.
pub fn opened(alloc: Global, get: &Get, more: u32, answer: MetaReply) -> Stage
    ensures rest { rest_of_get get.now result ≡ on_opening get.now more answer }
    ensures at { IsGetStage get.now result }
{
    match Ending::of_meta(&answer) {
        Some(ending) => ended(ending),
        None => opened_or_refused(alloc, get, more, answer),
    }
}

/// The stage of a get whose lease was given back, and which comes to `next` then, or whose answer
/// doesn't say so. The lease may be gone.
fn given_back(get: &Get, next: Stage, answer: &MetaReply) -> Stage
    requires { IsGetStage get.now next }
    ensures rest { rest_of_get get.now result ≡ was_released (rest_of_get get.now next) answer.now }
    ensures at { IsGetStage get.now result }
{
    let _ = get;
    match answer {
        MetaReply::Done { .. } => next,
        MetaReply::Gone => next,
        _ => ended(Ending::Unnamed),
    }
}

/// The stage of a get at the answer to the request that gives its lease back, behind which it comes
/// to `next`.
pub fn released(get: &Get, next: Stage, answer: &MetaReply) -> Stage
    requires { IsGetStage get.now next }
    ensures rest { rest_of_get get.now result ≡ on_release (rest_of_get get.now next) answer.now }
    ensures at { IsGetStage get.now result }
{
    match Ending::of_meta(answer) {
        Some(ending) => ended(ending),
        None => given_back(get, next, answer),
    }
}
