//! The history lines. On want of memory `out` holds a part of what was to be appended.
#![tactic(auto, unfolding(qfs_model_text::specs::History::entry_words, qfs_model_text::specs::History::history_lines_from))]

ghost use Rattle.std.specs.Prelude.{◌≡◌, ◌++◌, ◌+◌, ◌≤◌, ◌^◌, ◌<◌, OnOk, length};
ghost use Rattle.qfs_model_text.specs.Line.{more_words};
ghost use Rattle.qfs_model_text.specs.History.{entry_words, history_lines_from, history_lines};

use qfs_base::history::Entry;
use qfs_lines::words::{end_line, push_number, push_path, push_word};
use std::alloc::AllocError;

/// Appends the words of a change.
fn push_entry(out: &mut Vec<u8>, entry: &Entry) -> Result<(), AllocError>
    ensures { OnOk result (out.new.items ≡ out.old.items ++ more_words (entry_words entry.now)) }
{
    match entry {
        Entry::Mkdir(path) => {
            push_word(out, b"mkdir")?;
            push_path(out, path)
        }
        Entry::Rmdir(path) => {
            push_word(out, b"rmdir")?;
            push_path(out, path)
        }
        Entry::Created(file, path) => {
            push_word(out, b"created")?;
            push_number(out, u64::from(*file))?;
            push_path(out, path)
        }
        Entry::Closed(file, actor, command) => {
            push_word(out, b"closed")?;
            push_number(out, u64::from(*file))?;
            push_word(out, b"by")?;
            push_number(out, u64::from(*actor))?;
            push_number(out, u64::from(*command))
        }
        Entry::Aborted(file) => {
            push_word(out, b"aborted")?;
            push_number(out, u64::from(*file))
        }
        Entry::Removed(path) => {
            push_word(out, b"removed")?;
            push_path(out, path)
        }
        Entry::Renamed(from, to) => {
            push_word(out, b"renamed")?;
            push_path(out, from)?;
            push_path(out, to)
        }
    }
}

/// Appends the lines of a history.
pub fn push_history(out: &mut Vec<u8>, history: &[Entry]) -> Result<(), AllocError>
    ensures { OnOk result (out.new.items ≡ out.old.items ++ history_lines history.now) }
{
    for (place, entry) in history.iter().enumerate() {
        out.extend_from_slice(b"history")?;
        push_number(out, place as u64)?;
        push_entry(out, entry)?;
        end_line(out)?;
    }
    Ok(())
}
