//! A window of a block that is read from six of its nine slots, one slot after another.
#![tactic(auto, unfolding(crate::specs::WindowReads::rest_of_step, crate::specs::WindowReads::rest_if_filled, qfs_machine::specs::Endings::report_of_ending, qfs_model_actor::specs::Ask::after_fetch))]

ghost use Rattle.std.specs.Prelude.{◌≡◌, ◌+◌, ◌*◌, ◌<◌, ◌≤◌, [], length, replicate, false, ◌↔◌, IfOk, IsTrue, OnOk};
ghost use Rattle.qfs_base.specs.Mask.{all_slots};
ghost use Rattle.qfs_base.specs.Sizes.{DATA_SLOTS, SLOTS, WINDOW_ROWS};
ghost use Rattle.qfs_machine.specs.Asking.{Asks};
ghost use Rattle.qfs_model_actor.specs.Read.{Reading, are_too_few, read_slots};
ghost use Rattle.qfs_model_actor.specs.Work.{goes_on};
ghost use Rattle.qfs_window.specs.WindowReads.{after_slot, rest_from_slot, rest_if_filled};
ghost use Rattle.qfs_window.specs.WindowReads.{rest_of_read, rest_of_step, rest_with_piece};
ghost use Rattle.qfs_window.specs.WindowReads.{rest_without, slot_bytes, Behind, HasRoom, IsFetch};
ghost use Rattle.qfs_window.specs.WindowReads.{HasRoomOnceGiven, IsRead, IsWindowStep};
ghost use Rattle.qfs_window.specs.WindowReads.{IsStepOf, WantsMore};

use crate::parts::keep_part;
use crate::sources::{Sources, are_too_few, next_source};
use qfs_base::chunk::{BlockId, ChunkKey, Copy};
use qfs_base::layout::Window;
use qfs_base::listing::Listing;
use qfs_base::lists::Cause;
use qfs_base::mask::Mask;
use qfs_base::numbers::Slot;
use qfs_base::reply::{ChunkAnswer, ChunkReply, NodeReply};
use qfs_base::request::{ChunkRequest, NodeRequest};
use qfs_base::sizes::{DATA_SLOTS, SLOTS};
use qfs_machine::Ending;
use std::alloc::{AllocError, Global};

/// A window of a block that is read from six of its nine slots, one slot after another.
#[derive(Drop)]
pub struct WindowRead {
    pub window: Window,
    /// Where the slots of the block can be read.
    pub sources: Sources,
    /// The slot whose bytes are asked for, and its copy.
    pub slot: Slot,
    pub copy: Copy,
    /// The slots that gave their bytes in this window.
    pub have: Mask,
    /// What they gave, in one part for each of the nine, once one gave its bytes.
    pub nine: Vec<u8>,
}

/// What comes of a node's reply to the request for the bytes of a slot.
#[derive(Drop)]
pub enum WindowStep {
    /// The next slot is asked for.
    Goes(WindowRead),
    /// Six slots gave their bytes.
    Six(WindowRead),
    /// Too few slots can be read.
    TooFew(WindowRead),
    /// The command gives back what it holds and ends, as any may.
    GivesUp(Ending),
    /// It ends at once.
    Ended(Ending),
}

/// A window of a block is read, of which enough slots can be. `nine` may be of any length.
pub fn begin_window(stripe: u32, window: Window, sources: Sources, nine: Vec<u8>) -> WindowRead
    requires rows { window.rows ≤ WINDOW_ROWS }
    requires enough { are_too_few sources ≡ false }
    ensures rest { (reading : Reading) (behind : Behind) → rest_of_read reading behind result
        ≡ read_slots reading window DATA_SLOTS all_slots sources [] behind }
    ensures at { IsRead stripe result }
    ensures window { result.window ≡ window }
{
    let _ = stripe;
    let (slot, copy) = next_source(&sources, 0);
    WindowRead {
        window,
        sources,
        slot,
        copy,
        have: Mask::none(),
        nine,
    }
}

/// How many bytes a slot gives in the window.
fn slot_bytes(stripe: u32, read: &WindowRead) -> usize
    requires stripe { stripe ≤ 65536 }
    requires rows { read.now.window.rows ≤ WINDOW_ROWS }
    ensures value { result ≡ slot_bytes stripe read.now }
    ensures most { result ≤ 1048576 }
{
    read.window.rows as usize * stripe as usize
}

/// So many zeros.
fn zeros(alloc: Global, len: usize) -> Result<Vec<u8>, AllocError>
    ensures { IfOk result (λ zeros. zeros.items ≡ replicate len 0) }
{
    vec![in alloc; 0; len]
}

/// Whether there is room for so many bytes, and for no more.
fn has_room(nine: &Vec<u8>, len: usize) -> bool
    ensures { IsTrue result ↔ (length nine.now.items ≡ len) }
{
    nine.len() == len
}

/// Takes room for what the slots of the window give, unless it is there.
pub fn make_room(alloc: Global, stripe: u32, read: &mut WindowRead) -> Result<(), AllocError>
    requires stripe { stripe ≤ 65536 }
    requires at { IsRead stripe read.old }
    ensures rest { (reading : Reading) (behind : Behind) → reading.stripe ≡ stripe
        → rest_of_read reading behind read.new ≡ rest_of_read reading behind read.old }
    ensures at { IsRead stripe read.new }
    ensures room { OnOk result (HasRoom stripe read.new) }
    ensures window { read.new.window ≡ read.old.window }
{
    let all = SLOTS as usize * slot_bytes(stripe, read);
    if !has_room(&read.nine, all) {
        read.nine = zeros(alloc, all)?;
    }
    Ok(())
}

/// The request for the bytes of the slot that is asked for, of this block.
pub fn fetch_request(
    alloc: Global,
    block: BlockId,
    stripe: u32,
    read: &WindowRead,
) -> Result<NodeRequest, AllocError>
    requires stripe { stripe ≤ 65536 }
    requires at { IsRead stripe read.now }
    requires within { read.now.window.first_row ≤ 1024 }
    ensures request { IfOk result (λ request. (reading : Reading) (behind : Behind)
        → reading.stripe ≡ stripe → reading.block ≡ block
        → Asks (rest_of_read reading behind read.now) request) }
    ensures askable { IfOk result IsFetch }
{
    let room = zeros(alloc, slot_bytes(stripe, read))?;
    let key = ChunkKey {
        block,
        slot: read.slot,
        version: read.copy.version,
    };
    let fetch = ChunkRequest::Fetch {
        key,
        life: read.copy.life,
        from: read.window.first_row * stripe,
        room: Listing::from_vec(room),
    };
    Ok(NodeRequest::Chunk(read.copy.server, fetch))
}

/// The slots of the window behind the present one are asked for.
fn next_slot(stripe: u32, read: WindowRead) -> WindowStep
    requires slot { read.slot < SLOTS }
    requires rows { read.window.rows ≤ WINDOW_ROWS }
    requires more { WantsMore read.sources read.have (read.slot + 1) }
    requires room { HasRoomOnceGiven stripe read }
    ensures rest { (reading : Reading) (behind : Behind) → rest_of_step reading behind result
        ≡ rest_from_slot reading behind read (read.slot + 1) }
    ensures at { IsWindowStep stripe result }
    ensures window { IsStepOf read.window result }
{
    let _ = stripe;
    let mut read = read;
    let (slot, copy) = next_source(&read.sources, read.slot + 1);
    read.slot = slot;
    read.copy = copy;
    WindowStep::Goes(read)
}

/// The slot failed.
fn failed(stripe: u32, read: WindowRead, cause: Cause) -> WindowStep
    requires { IsRead stripe read }
    ensures rest { (reading : Reading) (behind : Behind)
        → rest_of_step reading behind result ≡ rest_without reading behind read cause }
    ensures at { IsWindowStep stripe result }
    ensures window { IsStepOf read.window result }
{
    let mut read = read;
    read.sources[read.slot as usize] = Err(cause);
    if are_too_few(&read.sources) {
        return WindowStep::TooFew(read);
    }
    next_slot(stripe, read)
}

/// The slot gave its bytes.
fn given(stripe: u32, read: WindowRead, bytes: &[u8]) -> WindowStep
    requires at { IsRead stripe read }
    requires room { HasRoom stripe read }
    requires bytes { length bytes.now ≡ slot_bytes stripe read }
    ensures rest { (reading : Reading) (behind : Behind) → reading.stripe ≡ stripe
        → rest_of_step reading behind result ≡ rest_with_piece reading behind read bytes.now }
    ensures at { IsWindowStep stripe result }
    ensures window { IsStepOf read.window result }
{
    let mut read = read;
    read.have = keep_part(&mut read.nine, bytes.len(), read.have, read.slot, bytes);
    if read.have.count() >= DATA_SLOTS as usize {
        return WindowStep::Six(read);
    }
    next_slot(stripe, read)
}

/// The slot was fetched, into a room that may not be as long as it was asked for.
fn taken(stripe: u32, read: WindowRead, room: &[u8]) -> WindowStep
    requires stripe { stripe ≤ 65536 }
    requires at { IsRead stripe read }
    requires room { HasRoom stripe read }
    ensures rest { (reading : Reading) (behind : Behind) → reading.stripe ≡ stripe
        → rest_of_step reading behind result ≡ rest_if_filled reading behind read room.now }
    ensures at { IsWindowStep stripe result }
    ensures window { IsStepOf read.window result }
{
    if room.len() != slot_bytes(stripe, &read) {
        return WindowStep::Ended(Ending::Unnamed);
    }
    given(stripe, read, room)
}

/// A server's answer to the request for bytes of a slot, which doesn't end every command.
fn answered(stripe: u32, read: WindowRead, reply: &ChunkReply) -> WindowStep
    requires stripe { stripe ≤ 65536 }
    requires at { IsRead stripe read }
    requires room { HasRoom stripe read }
    ensures rest { (reading : Reading) (behind : Behind) → reading.stripe ≡ stripe
        → rest_of_step reading behind result ≡ after_slot reading behind read reply.now }
    ensures at { IsWindowStep stripe result }
    ensures window { IsStepOf read.window result }
{
    match &reply.answer {
        ChunkAnswer::Fetched => taken(stripe, read, reply.room.as_slice()),
        ChunkAnswer::Down => failed(stripe, read, Cause::Down),
        ChunkAnswer::Lost { asked, now } => {
            let cause = Cause::Lost {
                asked: *asked,
                now: *now,
            };
            failed(stripe, read, cause)
        }
        ChunkAnswer::Absent => failed(stripe, read, Cause::Absent),
        ChunkAnswer::Fault => failed(stripe, read, Cause::Fault),
        _ => WindowStep::Ended(Ending::Unnamed),
    }
}

/// A server's answer to the request for bytes of a slot.
fn fetched(stripe: u32, read: WindowRead, reply: &ChunkReply) -> WindowStep
    requires stripe { stripe ≤ 65536 }
    requires at { IsRead stripe read }
    requires room { HasRoom stripe read }
    ensures rest { (reading : Reading) (behind : Behind) → reading.stripe ≡ stripe
        → rest_of_step reading behind result
        ≡ goes_on (rest_of_read reading behind read) (NodeReply.Chunk reply.now) }
    ensures at { IsWindowStep stripe result }
    ensures window { IsStepOf read.window result }
{
    match Ending::of_chunk(&reply.answer) {
        Some(ending) => WindowStep::GivesUp(ending),
        None => answered(stripe, read, reply),
    }
}

/// What comes of a node's reply to the request for the bytes of a slot, for which there is room.
/// Takes no memory.
pub fn step_after(stripe: u32, read: WindowRead, reply: &NodeReply) -> WindowStep
    requires stripe { stripe ≤ 65536 }
    requires at { IsRead stripe read }
    requires room { HasRoom stripe read }
    ensures rest { (reading : Reading) (behind : Behind) → reading.stripe ≡ stripe
        → rest_of_step reading behind result ≡ goes_on (rest_of_read reading behind read) reply.now }
    ensures at { IsWindowStep stripe result }
    ensures window { IsStepOf read.window result }
{
    match reply {
        NodeReply::Chunk(reply) => fetched(stripe, read, reply),
        NodeReply::Meta(_) => WindowStep::Ended(Ending::Unnamed),
    }
}
