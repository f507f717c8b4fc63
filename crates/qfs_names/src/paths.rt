//! Paths that are made of others.
ghost use Rattle.std.specs.Prelude.{◌≡◌, ◌+◌, ◌-◌, ◌≤◌, ◌++◌, length, drop, IfOk, OnOk};
ghost use Rattle.qfs_base.specs.NameTree.{most_names};

use qfs_base::listing::Listing;
use qfs_base::lists::Bytes;
use qfs_base::path::Path;
use std::alloc::{AllocError, Global};

/// Puts copies of these names at the end.
fn push_names(alloc: Global, out: &mut Listing<Bytes>, names: &[Bytes]) -> Result<(), AllocError>
    ensures { OnOk result (out.new ≡ out.old ++ names.now) }
{
    for name in names {
        out.push(Listing::from_slice(alloc, name.as_slice())?)?;
    }
    Ok(())
}

/// A copy of a path.
pub fn copy_path(alloc: Global, path: &Path) -> Result<Path, AllocError>
    ensures { IfOk result (λ copy. copy ≡ path.now) }
{
    let mut names = Listing::new(alloc);
    push_names(alloc, &mut names, path.names.as_slice())?;
    Ok(Path { names })
}

/// The path of an entry whose first `depth` names are `to` from then on.
pub fn moved_path(alloc: Global, depth: usize, to: &Path, path: &Path) -> Result<Path, AllocError>
    requires depth { depth ≤ length path.now }
    requires short { length to.now + (length path.now - depth) ≤ most_names }
    ensures { IfOk result (λ made. made ≡ to.now ++ drop depth path.now) }
{
    let mut names = Listing::new(alloc);
    push_names(alloc, &mut names, to.names.as_slice())?;
    push_names(alloc, &mut names, &path.names.as_slice()[depth..])?;
    Ok(Path { names })
}
