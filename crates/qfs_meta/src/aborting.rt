//! What giving an unclosed file up changes.
ghost use Rattle.std.specs.Prelude.{◌≡◌, ◌<◌, ◌≤◌, ◌^◌, length, OnOk, OnErr};
ghost use Rattle.qfs_base.specs.Table.{IsRising};
ghost use Rattle.qfs_model_meta.specs.Slots.{slot_cmp, forget_file};
ghost use Rattle.qfs_model_meta.specs.TreeRows.{take_file};
ghost use Rattle.qfs_meta.specs.Condemning.{aborting};
ghost use Rattle.qfs_meta.specs.Kept.{IsKept};
ghost use Rattle.qfs_base.specs.Sizes.{MOST_SERVERS};
ghost use Rattle.qfs_meta.specs.Loads.{loads_of};

use crate::condemning::{condemn_copies, live_grants};
use crate::loads::uncount;
use crate::rows::{run_of, take_items};
use qfs_base::history::Entry;
use qfs_base::image::{MetaImage, RecordList, ServerView, TreeRow};
use qfs_base::listing::Listing;
use qfs_base::numbers::FileId;
use std::alloc::{AllocError, Global};

/// Takes the slots of a file out of the table, and off the loads.
fn forget_file(
    alloc: Global,
    servers: &[ServerView],
    slots: &mut RecordList,
    loads: &mut [usize],
    file: FileId,
)
    requires servers { length servers.now ≤ MOST_SERVERS }
    requires order { IsRising slot_cmp slots.old }
    requires loads { loads.old ≡ loads_of servers.now slots.old }
    ensures slots { slots.new ≡ forget_file file slots.old }
    ensures loads { loads.new ≡ loads_of servers.now slots.new }
{
    let run = run_of(slots.as_slice(), &file);
    uncount(loads, servers, slots.as_slice(), run);
    let mut rows = take_items(alloc, slots);
    rows.retain(|row| row.block.file != file);
    *slots = Listing::from_vec(rows);
}

/// Takes a file out of the tree.
fn take_file(alloc: Global, tree: &mut Listing<TreeRow>, file: FileId)
    ensures { tree.new ≡ take_file file tree.old }
{
    let mut rows = take_items(alloc, tree);
    rows.retain(|row| row.file != file);
    *tree = Listing::from_vec(rows);
}

/// Gives an unclosed file up: its live grants are condemned by index and slot, and it and its
/// slots are taken out. On want of memory, and where a condemned number would be the last one of
/// 64 bits, the state stays.
pub fn abort_file(
    alloc: Global,
    image: &mut MetaImage,
    loads: &mut [usize],
    file: FileId,
) -> Result<(), AllocError>
    requires kept { IsKept image.old }
    requires loads { loads.old ≡ loads_of image.old.servers image.old.slots }
    ensures ok { OnOk result (image.new ≡ aborting file image.old) }
    ensures fits { OnOk result (image.new.next_condemned < 2 ^ 64) }
    ensures err { OnErr result (image.new ≡ image.old) }
    ensures loads { loads.new ≡ loads_of image.new.servers image.new.slots }
{
    let copies = live_grants(
        alloc,
        image.servers.as_slice(),
        image.slots.as_slice(),
        file,
    )?;
    let entries = image.history.len();
    image.history.push(Entry::Aborted(file))?;
    if let Err(error) = condemn_copies(alloc, image, &copies) {
        image.history.truncate(entries);
        return Err(error);
    }
    forget_file(
        alloc,
        image.servers.as_slice(),
        &mut image.slots,
        loads,
        file,
    );
    take_file(alloc, &mut image.tree, file);
    Ok(())
}
