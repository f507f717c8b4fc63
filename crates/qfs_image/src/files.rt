//! The files of an image's name tree, and the leases on them, by the numbers of the files.
ghost use Rattle.std.specs.Prelude.{◌≡◌, [], IfOk, OnOk};
ghost use Rattle.qfs_image.specs.Files.{with_files, with_lease, with_leases};

use qfs_base::image::{Lease, TreeRow};
use qfs_base::key_map::KeyMap;
use qfs_base::listing::Listing;
use qfs_base::numbers::{FileId, LeaseId};
use std::alloc::{AllocError, Global};

/// The files of a tree, each with whether it is closed.
pub(crate) type Files = KeyMap<FileId, bool>;

/// The leases on each file, by number.
pub(crate) type Blocking = KeyMap<FileId, Listing<LeaseId>>;

/// The files of these rows. None says that two of them have one number.
pub(crate) fn files_of(alloc: Global, tree: &[TreeRow]) -> Result<Option<Files>, AllocError>
    ensures { IfOk result (λ found. found ≡ with_files [] tree.now) }
{
    let mut files = KeyMap::new(alloc);
    for row in tree {
        if row.file == 0 {
            continue;
        }
        if files.contains(&row.file) {
            return Ok(None);
        }
        files.insert(row.file, row.closed)?;
    }
    Ok(Some(files))
}

/// The leases by file.
pub(crate) fn blocking_of(alloc: Global, leases: &[Lease]) -> Result<Blocking, AllocError>
    ensures { IfOk result (λ found. found ≡ with_leases [] leases.now) }
{
    let mut blocking = KeyMap::new(alloc);
    for lease in leases {
        put_lease(alloc, lease, &mut blocking)?;
    }
    Ok(blocking)
}

/// Puts a lease behind those on its file.
#[tactic(auto, unfolding(crate::specs::Files::with_lease, crate::specs::Files::or_none))]
fn put_lease(alloc: Global, lease: &Lease, blocking: &mut Blocking) -> Result<(), AllocError>
    ensures { OnOk result (blocking.new ≡ with_lease blocking.old lease.now) }
{
    let mut on_file = match blocking.remove(&lease.file) {
        Some(on_file) => on_file,
        None => Listing::new(alloc),
    };
    on_file.push(lease.lease)?;
    blocking.insert(lease.file, on_file)
}
