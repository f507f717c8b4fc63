//! The reply lines. On want of memory `out` holds a part of what was to be appended.
#![tactic(auto, unfolding(qfs_model_text::specs::Reply::refusal_word, qfs_model_text::specs::Reply::cause_word, qfs_model_text::specs::Reply::name_mark, qfs_model_text::specs::Reply::shown_words, qfs_model_text::specs::Reply::side_word, qfs_model_text::specs::Reply::reply_words))]

ghost use Rattle.std.specs.Prelude.{◌≡◌, ◌++◌, ◌∷◌, [], decimal, codes, OnOk, flat_map, map, length};
ghost use Rattle.qfs_model_text.specs.Line.{spaced, more_words};
ghost use Rattle.qfs_model_text.specs.Reply.{refusal_word, cause_word, slot_cause, name_word, name_mark, shown_words, slot_words, no_server, tally, too_few, at_place, side_word, reply_words, reply_line, reply_lines};

use crate::words::{end_line, push_digits, push_hex, push_number, push_word};
use qfs_base::chunk::BlockId;
use qfs_base::command::{Excerpt, Reply, ReplyLine, Shown};
use qfs_base::lists::{Cause, Name, NameKind, SlotCause};
use qfs_base::numbers::{Life, Place, ServerId, Slot, Version};
use qfs_base::reply::TreeRefusal;
use std::alloc::{AllocError, Global};

/// The word for why the name tree refuses.
fn refusal_text(refusal: TreeRefusal) -> &'static [u8]
    ensures { result.now ≡ refusal_word refusal }
{
    match refusal {
        TreeRefusal::NoParent => b"noparent",
        TreeRefusal::NotDir => b"notdir",
        TreeRefusal::Exists => b"exists",
        TreeRefusal::Missing => b"missing",
        TreeRefusal::NotEmpty => b"notempty",
        TreeRefusal::IsDir => b"isdir",
        TreeRefusal::Unclosed => b"unclosed",
        TreeRefusal::IntoSelf => b"intoself",
        TreeRefusal::TooDeep => b"toodeep",
    }
}

/// Appends `lost` and two lives.
fn push_lost(out: &mut Vec<u8>, asked: Life, now: Life) -> Result<(), AllocError>
    ensures { OnOk result (out.new.items ≡ out.old.items ++ cause_word (Cause.Lost asked now)) }
{
    out.extend_from_slice(b"lost:")?;
    push_digits(out, u64::from(asked))?;
    out.push(b':')?;
    push_digits(out, u64::from(now))
}

/// Appends the word for why a chunk couldn't be read or stored.
fn push_cause(out: &mut Vec<u8>, cause: Cause) -> Result<(), AllocError>
    ensures { OnOk result (out.new.items ≡ out.old.items ++ cause_word cause) }
{
    match cause {
        Cause::Unlisted => out.extend_from_slice(b"unlisted"),
        Cause::Down => out.extend_from_slice(b"down"),
        Cause::Lost { asked, now } => push_lost(out, asked, now),
        Cause::Absent => out.extend_from_slice(b"absent"),
        Cause::Fault => out.extend_from_slice(b"fault"),
    }
}

/// Appends a blank, and a slot with why it couldn't be read.
fn push_slot_cause(out: &mut Vec<u8>, found: SlotCause) -> Result<(), AllocError>
    ensures { OnOk result (out.new.items ≡ out.old.items ++ spaced (slot_cause found)) }
{
    push_number(out, u64::from(found.slot))?;
    out.push(b':')?;
    push_cause(out, found.cause)
}

/// Appends the word for why a block couldn't be read, the block's index, and its slots that
/// couldn't be read.
fn push_too_few(out: &mut Vec<u8>, index: u32, causes: &[SlotCause]) -> Result<(), AllocError>
    ensures { OnOk result (out.new.items ≡ out.old.items ++ more_words (too_few index causes.now)) }
{
    push_word(out, b"toofew")?;
    push_number(out, u64::from(index))?;
    for cause in causes {
        push_slot_cause(out, *cause)?;
    }
    Ok(())
}

/// Appends the words that say at which place of the history a reply was given.
fn push_place(out: &mut Vec<u8>, place: Place) -> Result<(), AllocError>
    ensures { OnOk result (out.new.items ≡ out.old.items ++ more_words (at_place place [])) }
{
    push_word(out, b"at")?;
    push_number(out, u64::from(place))
}

/// The mark of what a name stands for.
fn mark_text(kind: NameKind) -> &'static [u8]
    ensures { result.now ≡ name_mark kind }
{
    match kind {
        NameKind::Directory => b"/",
        NameKind::Unclosed => b"/?",
        NameKind::Closed => b"",
    }
}

/// Appends how many names there are, and the names with their marks.
fn push_names(out: &mut Vec<u8>, names: &[Name]) -> Result<(), AllocError>
    ensures { OnOk result (out.new.items
        ≡ out.old.items ++ more_words
        (codes "list" ∷ decimal (length names.now) ∷ map name_word names.now)) }
{
    push_word(out, b"list")?;
    push_number(out, names.len() as u64)?;
    for name in names {
        push_word(out, name.part.as_slice())?;
        out.extend_from_slice(mark_text(name.kind))?;
    }
    Ok(())
}

/// Appends how many bytes were read, and what is shown of them.
fn push_excerpt(alloc: Global, out: &mut Vec<u8>, read: &Excerpt) -> Result<(), AllocError>
    ensures { OnOk result (out.new.items
        ≡ out.old.items ++ more_words (shown_words read.now.len read.now.shown)) }
{
    push_number(out, u64::from(read.len))?;
    match &read.shown {
        Shown::Whole(bytes) => {
            if bytes.is_empty() {
                return Ok(());
            }
            push_word(out, b"hex")?;
            push_hex(alloc, out, bytes.as_slice())
        }
        Shown::Digest(digest) => {
            push_word(out, b"sha256")?;
            push_hex(alloc, out, digest.as_slice())
        }
    }
}

/// Appends a word, and the file, index and slot that it speaks of.
fn push_slot(out: &mut Vec<u8>, word: &[u8], block: BlockId, slot: Slot) -> Result<(), AllocError>
    ensures { OnOk result (out.new.items
        ≡ out.old.items ++ more_words (word.now ∷ slot_words block slot)) }
{
    push_word(out, word)?;
    push_number(out, u64::from(block.file))?;
    push_number(out, u64::from(block.index))?;
    push_number(out, u64::from(slot))
}

/// Appends a word and a number.
fn push_count(out: &mut Vec<u8>, word: &[u8], count: u64) -> Result<(), AllocError>
    ensures { OnOk result (out.new.items
        ≡ out.old.items ++ more_words (word.now ∷ decimal count ∷ [])) }
{
    push_word(out, word)?;
    push_number(out, count)
}

/// Appends how many were done and how many failed.
fn push_tally(out: &mut Vec<u8>, word: &[u8], done: u32, failed: u32) -> Result<(), AllocError>
    ensures { OnOk result (out.new.items
        ≡ out.old.items ++ more_words (tally word.now done failed)) }
{
    push_count(out, word, u64::from(done))?;
    push_count(out, b"failed", u64::from(failed))
}

/// Appends a word, a server and a cause.
fn push_failed(
    out: &mut Vec<u8>,
    word: &[u8],
    server: ServerId,
    cause: Cause,
) -> Result<(), AllocError>
    ensures { OnOk result (out.new.items
        ≡ out.old.items ++ more_words (word.now ∷ decimal server ∷ cause_word cause ∷ [])) }
{
    push_count(out, word, u64::from(server))?;
    out.push(b' ')?;
    push_cause(out, cause)
}

/// Appends that a slot was made anew on a server.
fn push_recovered(
    out: &mut Vec<u8>,
    block: BlockId,
    slot: Slot,
    server: ServerId,
    version: Version,
) -> Result<(), AllocError>
    ensures { OnOk result (out.new.items ≡ out.old.items
        ++ more_words (reply_words (Reply.Recovered block slot server version))) }
{
    push_slot(out, b"recovered", block, slot)?;
    push_count(out, b"on", u64::from(server))?;
    push_count(out, b"version", u64::from(version))
}

/// Appends that a slot's copy was moved from the first server to the second.
fn push_moved(
    out: &mut Vec<u8>,
    block: BlockId,
    slot: Slot,
    servers: (ServerId, ServerId),
    version: Version,
) -> Result<(), AllocError>
    ensures { OnOk result (out.new.items ≡ out.old.items
        ++ more_words (reply_words (Reply.Moved block slot servers.0 servers.1 version))) }
{
    push_slot(out, b"moved", block, slot)?;
    push_count(out, b"from", u64::from(servers.0))?;
    push_count(out, b"to", u64::from(servers.1))?;
    push_count(out, b"version", u64::from(version))
}

/// Appends how many were done and how many failed, and the slot for which there is no server.
fn push_unserved(
    out: &mut Vec<u8>,
    word: &[u8],
    counts: (u32, u32),
    block: BlockId,
    slot: Slot,
) -> Result<(), AllocError>
    ensures { OnOk result (out.new.items ≡ out.old.items
        ++ more_words (tally word.now counts.0 counts.1 ++ no_server block slot)) }
{
    push_tally(out, word, counts.0, counts.1)?;
    push_slot(out, b"noserver", block, slot)
}

/// The word for one of the two log disks.
fn side_text(right: bool) -> &'static [u8]
    ensures { result.now ≡ side_word right }
{
    if right { b"right" } else { b"left" }
}

/// Appends the words of a reply.
fn push_reply(alloc: Global, out: &mut Vec<u8>, reply: &Reply<Excerpt>) -> Result<(), AllocError>
    ensures { OnOk result (out.new.items ≡ out.old.items ++ more_words (reply_words reply.now)) }
{
    match reply {
        Reply::Done { place } => {
            push_place(out, *place)?;
            push_word(out, b"done")
        }
        Reply::Listed { place, names } => {
            push_place(out, *place)?;
            push_names(out, names.as_slice())
        }
        Reply::Stored { place, len } => {
            push_place(out, *place)?;
            push_count(out, b"stored", u64::from(*len))
        }
        Reply::PutNoServer { place, index, slot } => {
            push_place(out, *place)?;
            push_count(out, b"noserver", u64::from(*index))?;
            push_number(out, u64::from(*slot))
        }
        Reply::Read { place, read } => {
            push_place(out, *place)?;
            push_word(out, b"read")?;
            push_excerpt(alloc, out, read)
        }
        Reply::ReadTooFew {
            place,
            index,
            causes,
        } => {
            push_place(out, *place)?;
            push_too_few(out, *index, causes.as_slice())
        }
        Reply::Refused { place, refusal } => {
            push_place(out, *place)?;
            push_word(out, refusal_text(*refusal))
        }
        Reply::Recovered {
            block,
            slot,
            server,
            version,
        } => push_recovered(out, *block, *slot, *server, *version),
        Reply::Moved {
            block,
            slot,
            from,
            to,
            version,
        } => push_moved(out, *block, *slot, (*from, *to), *version),
        Reply::TooFew { index, causes } => push_too_few(out, *index, causes.as_slice()),
        Reply::DestFailed { server, cause } => push_failed(out, b"destfailed", *server, *cause),
        Reply::SourceFailed { server, cause } => push_failed(out, b"sourcefailed", *server, *cause),
        Reply::BadPath(refusal) => push_word(out, refusal_text(*refusal)),
        Reply::NoBlock => push_word(out, b"noblock"),
        Reply::Taken { version } => push_count(out, b"taken", u64::from(*version)),
        Reply::Whole => push_word(out, b"whole"),
        Reply::Away { server } => push_count(out, b"away", u64::from(*server)),
        Reply::Barred { server } => push_count(out, b"barred", u64::from(*server)),
        Reply::Gone => push_word(out, b"gone"),
        Reply::NoServer { block, slot } => push_slot(out, b"noserver", *block, *slot),
        Reply::Healed { healed, failed } => push_tally(out, b"healed", *healed, *failed),
        Reply::HealNoServer {
            healed,
            failed,
            block,
            slot,
        } => { push_unserved(out, b"healed", (*healed, *failed), *block, *slot) }
        Reply::Rebalanced { moved, failed } => push_tally(out, b"rebalanced", *moved, *failed),
        Reply::Evacuated {
            moved,
            failed,
            left,
        } => {
            push_tally(out, b"evacuated", *moved, *failed)?;
            push_count(out, b"left", u64::from(*left))
        }
        Reply::EvacNoServer {
            moved,
            failed,
            block,
            slot,
        } => { push_unserved(out, b"evacuated", (*moved, *failed), *block, *slot) }
        Reply::Swept { erased } => push_count(out, b"swept", u64::from(*erased)),
        Reply::Stopped => push_word(out, b"stopped"),
        Reply::Started { life } => push_count(out, b"started", u64::from(*life)),
        Reply::Wiped { life } => push_count(out, b"wiped", u64::from(*life)),
        Reply::Fault => push_word(out, b"fault"),
        Reply::Hibernating { until } => {
            push_word(out, b"hibernating")?;
            push_count(out, b"until", *until)
        }
        Reply::NotUp => push_word(out, b"notup"),
        Reply::Upgraded => {
            push_word(out, b"writes")?;
            push_word(out, b"2")
        }
        Reply::Down => push_word(out, b"down"),
        Reply::Clock { now } => push_count(out, b"clock", *now),
        Reply::DropDone => push_word(out, b"done"),
        Reply::Saved { turn } => push_count(out, b"saved", *turn),
        Reply::Restarted { turn } => push_count(out, b"restarted", *turn),
        Reply::Dropped { turn } => push_count(out, b"dropped", *turn),
        Reply::LogFault => push_word(out, b"logfault"),
        Reply::NoMemory => push_word(out, b"nomemory"),
        Reply::BadLog { right, offset } => {
            push_word(out, b"badlog")?;
            push_count(out, side_text(*right), *offset)
        }
        Reply::Unnamed => push_word(out, b"unnamed"),
    }
}

/// Appends the line of a reply: the actor, the number of its command and the reply.
fn push_reply_line(alloc: Global, out: &mut Vec<u8>, line: &ReplyLine) -> Result<(), AllocError>
    ensures { OnOk result (out.new.items ≡ out.old.items ++ reply_line line.now) }
{
    push_digits(out, u64::from(line.actor))?;
    push_number(out, u64::from(line.command))?;
    push_reply(alloc, out, &line.reply)?;
    end_line(out)
}

/// Appends the lines of these replies.
pub fn push_replies(
    alloc: Global,
    out: &mut Vec<u8>,
    replies: &[ReplyLine],
) -> Result<(), AllocError>
    ensures { OnOk result (out.new.items ≡ out.old.items ++ reply_lines replies.now) }
{
    for reply in replies {
        push_reply_line(alloc, out, reply)?;
    }
    Ok(())
}
