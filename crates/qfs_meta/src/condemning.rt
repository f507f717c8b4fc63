//! Condemned copies: each waits for its deletion behind the live leases on its file.
ghost use Rattle.std.specs.Prelude.{◌≡◌, ◌+◌, ◌<◌, ◌^◌, length, IfOk, OnOk, OnErr};
ghost use Rattle.qfs_base.specs.Table.{IsRising};
ghost use Rattle.qfs_model_meta.specs.Condemned.{condemned_row, condemn};
ghost use Rattle.qfs_model_meta.specs.Leases.{leases_on};
ghost use Rattle.qfs_model_meta.specs.Slots.{slot_cmp, slots_of};
ghost use Rattle.qfs_meta.specs.Condemning.{condemned_rows, condemning, live_grant, live_grants};

use crate::servers::is_live;
use crate::slots::slots_of;
use qfs_base::chunk::Copy as ChunkCopy;
use qfs_base::image::{CondemnedRow, Lease, MetaImage, ServerView, SlotRow};
use qfs_base::listing::Listing;
use qfs_base::numbers::{FileId, LeaseId};
use qfs_base::reply::Condemned;
use qfs_base::request::SlotId;
use std::alloc::{AllocError, Global};

/// A copy of a slot.
#[derive(Clone, Copy)]
pub struct SlotCopy {
    pub id: SlotId,
    pub copy: ChunkCopy,
}

/// The numbers of the live leases on a file.
#[tactic(auto, unfolding(qfs_model_meta::specs::Leases::leases_on))]
fn leases_on(alloc: Global, leases: &[Lease], file: FileId) -> Result<Vec<LeaseId>, AllocError>
    ensures { IfOk result (λ numbers. numbers.items ≡ leases_on file leases.now) }
{
    leases
        .iter()
        .filter(|lease| lease.file == file)
        .map(|lease| lease.lease)
        .collect(alloc)
}

/// A copy that is condemned now, under a number: all live leases on its file block it.
#[tactic(auto, unfolding(qfs_model_meta::specs::Condemned::condemned_row))]
fn condemned_row(
    alloc: Global,
    number: u64,
    it: SlotCopy,
    leases: &[Lease],
) -> Result<CondemnedRow, AllocError>
    ensures { IfOk result (λ row. row ≡ condemned_row number it.id.block it.id.slot it.copy leases.now) }
{
    let blockers = Listing::from_vec(leases_on(alloc, leases, it.id.block.file)?);
    let condemned = Condemned {
        number,
        block: it.id.block,
        slot: it.id.slot,
        copy: it.copy,
    };
    Ok(CondemnedRow {
        condemned,
        ordered: false,
        blockers,
    })
}

/// Live copies that are condemned now, numbered from a number on.
fn condemned_rows(
    alloc: Global,
    number: u64,
    copies: &[SlotCopy],
    leases: &[Lease],
) -> Result<Listing<CondemnedRow>, AllocError>
    requires { number + length copies.now < 2 ^ 64 }
    ensures { IfOk result (λ rows. rows ≡ condemned_rows leases.now number copies.now) }
{
    let mut rows = Listing::with_capacity(alloc, copies.len())?;
    for at in 0..copies.len() {
        rows.push(condemned_row(alloc, number + at as u64, copies[at], leases)?)?;
    }
    Ok(rows)
}

/// Condemns live copies, one after another. On want of memory, and where a number would be the
/// last one of 64 bits, the state stays.
pub fn condemn_copies(
    alloc: Global,
    image: &mut MetaImage,
    copies: &[SlotCopy],
) -> Result<(), AllocError>
    ensures ok { OnOk result (image.new ≡ condemning copies.now image.old) }
    ensures fits { OnOk result (image.old.next_condemned + length copies.now < 2 ^ 64) }
    ensures err { OnErr result (image.new ≡ image.old) }
{
    let number = image.next_condemned;
    let count = copies.len() as u64;
    if count > u64::MAX - number {
        return Err(AllocError);
    }
    let rows = condemned_rows(alloc, number, copies, image.leases.as_slice())?;
    image.condemned.append(rows)?;
    image.next_condemned = number + count;
    Ok(())
}

/// Condemns a copy of a slot: where it is live it is listed, and else it is forgotten. On want of
/// memory, and where its number would be the last one of 64 bits, the state stays.
pub fn condemn(
    alloc: Global,
    image: &mut MetaImage,
    id: SlotId,
    copy: ChunkCopy,
) -> Result<(), AllocError>
    ensures ok { OnOk result (image.new ≡ condemn id.block id.slot copy image.old) }
    ensures fits { image.old.next_condemned < 2 ^ 64 → image.new.next_condemned < 2 ^ 64 }
    ensures err { OnErr result (image.new ≡ image.old) }
{
    if !is_live(image.servers.as_slice(), copy) {
        return Ok(());
    }
    condemn_copies(alloc, image, &[SlotCopy { id, copy }])
}

/// The copy that a slot's pending grant allows, if there is one and it is live.
fn live_grant(servers: &[ServerView], row: &SlotRow) -> Option<SlotCopy>
    ensures { result ≡ live_grant servers.now row.now }
{
    match row.state.grant {
        Some(grant) if is_live(servers, grant.copy) => Some(SlotCopy {
            id: SlotId {
                block: row.block,
                slot: row.slot,
            },
            copy: grant.copy,
        }),
        _ => None,
    }
}

/// The copies that the pending grants of a file's slots allow, where they are live.
pub fn live_grants(
    alloc: Global,
    servers: &[ServerView],
    slots: &[SlotRow],
    file: FileId,
) -> Result<Vec<SlotCopy>, AllocError>
    requires { IsRising slot_cmp slots.now }
    ensures { IfOk result (λ copies. copies.items ≡ live_grants servers.now (slots_of file slots.now)) }
{
    slots_of(slots, file)
        .iter()
        .filter_map(|row| live_grant(servers, row))
        .collect(alloc)
}
