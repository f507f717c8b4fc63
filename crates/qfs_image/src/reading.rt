//! Reads the image of a metaserver's state at the front of bytes.
ghost use Rattle.std.specs.Prelude.{◌≡◌, ◌≤◌, ◌++◌, List, ℕ, Some, length, take, drop, IfOk};
ghost use Rattle.std.specs.Prelude.{IfSome};
ghost use Rattle.std.specs.Option.{option_map};
ghost use Rattle.qfs_image.specs.Kept.{later_lists, set_state};
ghost use Rattle.qfs_model_disks.specs.Image.{counters, image};
ghost use Rattle.qfs_model_meta.specs.Grammar.{IsImage};
ghost use Rattle.qfs_spelling.specs.Fronts.{Finds};

use crate::rules::keeps_rules;
use qfs_base::history::History;
use qfs_base::image::{CondemnedRow, DroppedActor, LeaseList, MetaImage};
use qfs_base::listing::Listing;
use qfs_record::{u32_at, u64_at};
use qfs_spelling::Spelled;
use std::alloc::{AllocError, Global};

/// An image at the front of some bytes.
#[derive(Drop)]
pub struct ImageRead {
    pub image: MetaImage,
    /// How many bytes the image takes.
    pub length: usize,
}

/// Reads the image of a metaserver's state at the front of the input. None says that no front of it
/// is one: each list is to be in order without repeats, and the lists fit together as those of a
/// metaserver do. Err comes for want of memory alone.
pub fn read_image(alloc: Global, input: &[u8]) -> Result<Option<ImageRead>, AllocError>
    ensures read { IfOk result (λ found.
        option_map (λ it. (it.image, drop it.length input.now)) found ≡ image.read input.now) }
    ensures within { IfOk result (λ found. IfSome found (λ it. it.length ≤ length input.now)) }
    ensures found { IfOk result (λ found. IfSome found (λ it.
        image.Fits it.image × (take it.length input.now ≡ image.text it.image))) }
    ensures only { IfOk result (λ found. (state : MetaImage) (rest : List ℕ) → image.Fits state →
        input.now ≡ image.text state ++ rest →
        found ≡ Some (record { image = state; length = length (image.text state) })) }
{
    let Some((image, rest)) = state_at(alloc, input)? else {
        return Ok(None);
    };
    let sound = keeps_rules(alloc, &image)?;
    if !sound {
        return Ok(None);
    }
    let length = input.len() - rest.len();
    Ok(Some(ImageRead { image, length }))
}

/// Turn, clock, and the next file, lease and condemned copy.
type Counters = (u64, (u64, (u32, (u64, u64))));

/// Leases, condemned copies, dropped actors and the file history.
type LaterLists = (
    LeaseList,
    (Listing<CondemnedRow>, (Listing<DroppedActor>, History)),
);

/// The counters and lists at the front of bytes, whether or not they fit together.
fn state_at(alloc: Global, bytes: &[u8]) -> Result<Option<(MetaImage, &[u8])>, AllocError>
    ensures { IfOk result (Finds set_state bytes.now) }
{
    let Some(((turn, (clock, (next_file, (next_lease, next_condemned)))), rest)) = counters_at(
        bytes,
    ) else {
        return Ok(None);
    };
    let Some((servers, rest)) = Listing::read_at(alloc, rest)? else {
        return Ok(None);
    };
    let Some((tree, rest)) = Listing::read_at(alloc, rest)? else {
        return Ok(None);
    };
    let Some((slots, rest)) = Listing::read_at(alloc, rest)? else {
        return Ok(None);
    };
    let Some(((leases, (condemned, (dropped, history))), rest)) = later_lists_at(alloc, rest)?
    else {
        return Ok(None);
    };
    let image = MetaImage {
        turn,
        clock,
        next_file,
        next_lease,
        next_condemned,
        servers,
        tree,
        slots,
        leases,
        condemned,
        dropped,
        history,
    };
    Ok(Some((image, rest)))
}

/// The counters at the front of bytes.
fn counters_at(bytes: &[u8]) -> Option<(Counters, &[u8])>
    ensures { Finds counters bytes.now result }
{
    let (turn, rest) = u64_at(bytes)?;
    let (clock, rest) = u64_at(rest)?;
    let (next_file, rest) = u32_at(rest)?;
    let (next_lease, rest) = u64_at(rest)?;
    let (next_condemned, rest) = u64_at(rest)?;
    Some((
        (turn, (clock, (next_file, (next_lease, next_condemned)))),
        rest,
    ))
}

/// The last four lists at the front of bytes.
fn later_lists_at(alloc: Global, bytes: &[u8]) -> Result<Option<(LaterLists, &[u8])>, AllocError>
    ensures { IfOk result (Finds later_lists bytes.now) }
{
    let Some((leases, rest)) = Listing::read_at(alloc, bytes)? else {
        return Ok(None);
    };
    let Some((condemned, rest)) = Listing::read_at(alloc, rest)? else {
        return Ok(None);
    };
    let Some((dropped, rest)) = Listing::read_at(alloc, rest)? else {
        return Ok(None);
    };
    let Some((history, rest)) = Listing::read_at(alloc, rest)? else {
        return Ok(None);
    };
    Ok(Some(((leases, (condemned, (dropped, history))), rest)))
}

/// What is read as an image keeps the rules of a metaserver's state: its lists are in order, its
/// numbers are below the counters, and what it names is there.
pub fn images_keep_rules()
    ensures { (state : MetaImage) → image.Fits state → IsImage state }
{}

/// No image is the front of another's spelling, so what was written is read again, whatever follows.
pub fn images_are_apart()
    ensures { (one other : MetaImage) (rest after : List ℕ) → image.Fits one → image.Fits other →
        image.text one ++ rest ≡ image.text other ++ after →
        (one ≡ other) × (rest ≡ after) }
{}
