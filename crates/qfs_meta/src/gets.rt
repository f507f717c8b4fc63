//! The requests of a get: a file is opened under a lease, which ends at its release.
ghost use Rattle.std.specs.Prelude.{◌≡◌, ◌+◌, ◌<◌, ◌^◌, IfOk, OnOk, OnErr};
ghost use Rattle.qfs_model_meta.specs.Apply.{apply};
ghost use Rattle.qfs_base.specs.declared.change.Change.TheVariants.{GiveLease, EndLease};
ghost use Rattle.qfs_model_meta.specs.GetRequests.{decide_open, decide_release};
ghost use Rattle.qfs_model_meta.specs.Leases.{lease_end};
ghost use Rattle.qfs_meta.specs.Kept.{IsKept};
ghost use Rattle.qfs_meta.specs.Loads.{loads_of};
ghost use Rattle.qfs_meta.specs.Serving.{Serves};

use crate::leases::{Unblock, end_lease, holds_lease};
use crate::listed::listed_blocks;
use crate::names::{file_at, look_refusal};
use crate::rows::change_rows;
use crate::turn::{next_place, raise_turn};
use qfs_base::image::{Lease, MetaImage};
use qfs_base::numbers::{ActorId, FileId, LeaseId};
use qfs_base::path::Path;
use qfs_base::reply::{MetaReply, Opened};
use qfs_stripe::{Layout, LayoutCalls};
use std::alloc::{AllocError, Global};

/// The reading until which a lease lives that is given now: for good where the term is 0.
#[tactic(auto, unfolding(qfs_model_meta::specs::Leases::lease_end, qfs_model_meta::specs::Servers::reading_after))]
fn lease_end(term: u32, clock: u64) -> u64
    ensures { result ≡ lease_end term clock }
{
    if term == 0 {
        0
    } else {
        clock.saturating_add(term as u64)
    }
}

/// Gives an actor the next lease, on a file. On want of memory the state stays.
#[tactic(auto, unfolding(qfs_model_meta::specs::Apply::apply, qfs_model_meta::specs::Leases::give_lease))]
fn give_lease(
    image: &mut MetaImage,
    actor: ActorId,
    file: FileId,
    until: u64,
) -> Result<(), AllocError>
    requires { image.old.next_lease + 1 < 2 ^ 64 }
    ensures ok { OnOk result (image.new ≡ apply image.old (GiveLease actor file until)) }
    ensures err { OnErr result (image.new ≡ image.old) }
{
    let lease = image.next_lease;
    image.leases.push(Lease {
        lease,
        actor,
        file,
        until,
    })?;
    image.next_lease = lease + 1;
    Ok(())
}

/// Opens a closed file under a lease for a term, in ticks. On want of memory the state stays.
pub fn open(
    alloc: Global,
    layout: &Layout,
    term: u32,
    image: &mut MetaImage,
    actor: ActorId,
    path: &Path,
) -> Result<MetaReply, AllocError>
    requires { IsKept image.old }
    ensures ok { IfOk result (λ reply. Serves image.old (decide_open layout.now term actor path.now image.old) image.new reply) }
    ensures err { OnErr result (image.new ≡ image.old) }
    ensures kept { IsKept image.new }
    ensures loads { loads_of image.new.servers image.new.slots ≡ loads_of image.old.servers image.old.slots }
{
    let place = next_place(image);
    if let Some(refusal) = look_refusal(image.tree.as_slice(), path) {
        return Ok(MetaReply::Refused { refusal, place });
    }
    let (file, len) = file_at(image.tree.as_slice(), path);
    let count = layout.blocks_of(len);
    let blocks = listed_blocks(
        alloc,
        image.servers.as_slice(),
        image.slots.as_slice(),
        file,
        count,
    )?;
    let lease = image.next_lease;
    if lease == LeaseId::MAX {
        return Ok(MetaReply::NoMemory);
    }
    let until = lease_end(term, image.clock);
    give_lease(image, actor, file, until)?;
    raise_turn(image);
    Ok(MetaReply::Opened(Opened {
        lease,
        place,
        file,
        len,
        blocks,
    }))
}

/// Ends a lease, which blocks no condemned copy any more.
fn finish_lease(alloc: Global, image: &mut MetaImage, lease: LeaseId)
    ensures { image.new ≡ apply image.old (EndLease lease) }
{
    end_lease(alloc, &mut image.leases, lease);
    change_rows(alloc, &mut image.condemned, &Unblock { alloc, lease });
}

/// Ends an actor's lease.
pub fn release(alloc: Global, image: &mut MetaImage, actor: ActorId, lease: LeaseId) -> MetaReply
    requires { IsKept image.old }
    ensures served { Serves image.old (decide_release actor lease image.old) image.new result }
    ensures kept { IsKept image.new }
    ensures loads { loads_of image.new.servers image.new.slots ≡ loads_of image.old.servers image.old.slots }
{
    let place = next_place(image);
    if !holds_lease(image.leases.as_slice(), actor, lease) {
        return MetaReply::Gone;
    }
    finish_lease(alloc, image, lease);
    raise_turn(image);
    MetaReply::Done { place }
}
