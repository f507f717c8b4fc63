//! The audit: of each block of a closed file which copies are live, and the summary. On want of
//! memory `out` holds a part of what was to be appended.
#![tactic(auto, unfolding(qfs_model_text::specs::Audit::audit_letter))]

ghost use Rattle.std.specs.Prelude.{◌≡◌, ◌++◌, ◌∷◌, ◌≤◌, ◌*◌, ◌^◌, [], codes, decimal, map, flat_map, length, OnOk};
ghost use Rattle.qfs_base.specs.Mask.{all_slots, has_slot};
ghost use Rattle.qfs_base.specs.Order.{steps_of_runs};
ghost use Rattle.qfs_model_text.specs.Audit.{audit_letter, audit_line, audit_lines, summary_line};
ghost use Rattle.qfs_model_text.specs.Line.{more_words};
ghost use Rattle.qfs_report.specs.AuditOfImage.{audit_of_image};
ghost use Rattle.qfs_report.specs.AuditTables.{paths_of, lines_of, standing_of, copies_of, current_of};

use crate::closed::{Closed, closed_files, count_directories, count_files, path_of};
use crate::held::{Blocks, Held, held_blocks};
use qfs_base::image::MetaImage;
use qfs_base::mask::Mask;
use qfs_base::numbers::Life;
use qfs_base::order::{Order, StepRun};
use qfs_base::path::Path;
use qfs_base::sizes::SLOTS;
use qfs_lines::words::{end_line, push_number, push_path, push_total, push_word};
use std::alloc::{AllocError, Global};

/// What the summary tells.
#[derive(Clone, Copy)]
struct Summary {
    files: u128,
    dirs: u128,
    blocks: u128,
    copies: u128,
    condemned: u128,
    steps: u128,
}

/// The letter of a slot.
fn letter(live: bool) -> u8
    ensures { result ∷ [] ≡ audit_letter live }
{
    if live { b'r' } else { b'x' }
}

/// Appends the letters of a block's slots.
#[tactic(auto, using(crate::proofs::AuditSteps::letters_more))]
fn push_letters(out: &mut Vec<u8>, live: Mask) -> Result<(), AllocError>
    ensures { OnOk result (out.new.items
        ≡ out.old.items ++ flat_map audit_letter (map (has_slot live) all_slots)) }
{
    for slot in 0..SLOTS {
        out.push(letter(live.contains(slot)))?;
    }
    Ok(())
}

/// Appends the line of a block.
fn push_line(out: &mut Vec<u8>, path: &Path, index: u32, live: Mask) -> Result<(), AllocError>
    ensures { OnOk result (out.new.items ≡ out.old.items
        ++ audit_line (record {
          path = path.now;
          index = index;
          right = map (has_slot live) all_slots;
        })) }
{
    out.extend_from_slice(b"audit")?;
    push_path(out, path)?;
    push_number(out, u64::from(index))?;
    out.push(b' ')?;
    push_letters(out, live)?;
    end_line(out)
}

/// Appends the lines of the blocks of closed files.
#[tactic(auto, unfolding(crate::specs::AuditTables::lines_of, crate::specs::AuditTables::line_if))]
fn push_lines(out: &mut Vec<u8>, closed: &Closed, blocks: &Blocks) -> Result<(), AllocError>
    ensures { OnOk result (out.new.items
        ≡ out.old.items ++ flat_map audit_line (lines_of (paths_of closed.now) blocks.now)) }
{
    for (block, held) in blocks.iter() {
        if let Some(path) = path_of(closed, block.file) {
            push_line(out, path, block.index, held.live)?;
        }
    }
    Ok(())
}

/// How many slots of a block have a current copy.
#[tactic(auto, unfolding(crate::specs::AuditTables::current_of))]
fn count_current(held: &Held) -> usize
    ensures count { result ≡ current_of held.now }
    ensures few { result ≤ 9 }
{
    held.current.count()
}

/// How many blocks of closed files there are, and how many of their slots have a current copy.
#[tactic(auto, unfolding(crate::specs::AuditTables::standing_of, crate::specs::AuditTables::standing_if, crate::specs::AuditTables::copies_of))]
fn count_standing(closed: &Closed, blocks: &Blocks) -> (u128, u128)
    ensures blocks { result.0 ≡ length (standing_of (paths_of closed.now) blocks.now) }
    ensures copies { result.1 ≡ copies_of (standing_of (paths_of closed.now) blocks.now) }
{
    let _few = blocks.len();
    let mut standing = 0;
    let mut copies = 0;
    for (block, held) in blocks.iter() {
        if path_of(closed, block.file).is_some() {
            standing += 1;
            copies += count_current(held) as u128;
        }
    }
    (standing, copies)
}

/// How many steps these runs have.
fn count_runs(runs: &[StepRun]) -> u128
    ensures count { result ≡ length (steps_of_runs runs.now) }
    ensures few { result ≤ length runs.now * 2 ^ 32 }
{
    let mut steps = 0;
    for run in runs {
        steps += u128::from(run.count);
    }
    steps
}

/// How many steps an order has.
#[tactic(auto, using(crate::proofs::AuditSteps::with_last, crate::proofs::AuditSteps::without_last))]
fn count_steps(order: &Order) -> u128
    ensures { result ≡ length order.now }
{
    let (runs, last) = order.parts();
    let steps = count_runs(runs);
    match last {
        Some(_) => steps + 1,
        None => steps,
    }
}

/// Appends a word and a count.
fn push_count(out: &mut Vec<u8>, word: &[u8], count: u128) -> Result<(), AllocError>
    ensures { OnOk result (out.new.items
        ≡ out.old.items ++ more_words (word.now ∷ decimal count ∷ [])) }
{
    push_word(out, word)?;
    push_total(out, count)
}

/// Appends how many files, directories and blocks there are.
fn push_files(out: &mut Vec<u8>, summary: &Summary) -> Result<(), AllocError>
    ensures { OnOk result (out.new.items ≡ out.old.items ++ more_words (
        codes "files" ∷ decimal summary.now.files
        ∷ codes "dirs" ∷ decimal summary.now.dirs
        ∷ codes "blocks" ∷ decimal summary.now.blocks ∷ [])) }
{
    push_count(out, b"files", summary.files)?;
    push_count(out, b"dirs", summary.dirs)?;
    push_count(out, b"blocks", summary.blocks)
}

/// Appends how many copies, condemned copies and steps there are.
fn push_copies(out: &mut Vec<u8>, summary: &Summary) -> Result<(), AllocError>
    ensures { OnOk result (out.new.items ≡ out.old.items ++ more_words (
        codes "copies" ∷ decimal summary.now.copies
        ∷ codes "condemned" ∷ decimal summary.now.condemned
        ∷ codes "steps" ∷ decimal summary.now.steps ∷ [])) }
{
    push_count(out, b"copies", summary.copies)?;
    push_count(out, b"condemned", summary.condemned)?;
    push_count(out, b"steps", summary.steps)
}

/// Appends the line of the summary.
fn push_summary(out: &mut Vec<u8>, summary: &Summary) -> Result<(), AllocError>
    ensures { OnOk result (out.new.items ≡ out.old.items ++ summary_line (record {
      files = summary.now.files;
      dirs = summary.now.dirs;
      blocks = summary.now.blocks;
      copies = summary.now.copies;
      condemned = summary.now.condemned;
      steps = summary.now.steps;
    })) }
{
    out.extend_from_slice(b"summary")?;
    push_files(out, summary)?;
    push_copies(out, summary)?;
    end_line(out)
}

/// Appends the audit of this state, by these lives of the servers, after this order of steps.
pub fn push_audit(
    alloc: Global,
    out: &mut Vec<u8>,
    image: &MetaImage,
    lives: &[Life],
    order: &Order,
) -> Result<(), AllocError>
    ensures { OnOk result (out.new.items ≡ out.old.items
        ++ audit_lines (audit_of_image image.now lives.now (length order.now))) }
{
    let tree = image.tree.as_slice();
    let closed = closed_files(alloc, tree)?;
    let blocks = held_blocks(alloc, lives, image.slots.as_slice())?;
    push_lines(out, &closed, &blocks)?;
    let (standing, copies) = count_standing(&closed, &blocks);
    let summary = Summary {
        files: count_files(tree) as u128,
        dirs: count_directories(tree) as u128,
        blocks: standing,
        copies,
        condemned: image.condemned.len() as u128,
        steps: count_steps(order),
    };
    push_summary(out, &summary)
}
