//! Copies of names and of paths that are made of others.
ghost use Rattle.std.specs.Prelude.{◌≡◌, ◌++◌, drop, IfOk, OnOk};

use qfs_base::listing::Listing;
use qfs_base::lists::Bytes;
use std::alloc::{AllocError, Global};

/// Puts copies of these names at the end.
fn push_names(alloc: Global, out: &mut Listing<Bytes>, names: &[Bytes]) -> Result<(), AllocError>
    ensures { OnOk result (out.new ≡ out.old ++ names.now) }
{
    for name in names {
        out.push(Listing::from_slice(alloc, name.as_slice())?)?;
    }
    Ok(())
}

/// A copy of these names.
pub fn copy_names(alloc: Global, names: &[Bytes]) -> Result<Listing<Bytes>, AllocError>
    ensures { IfOk result (λ copy. copy ≡ names.now) }
{
    let mut copy = Listing::new(alloc);
    push_names(alloc, &mut copy, names)?;
    Ok(copy)
}

/// The names from a depth on.
fn names_from(names: &[Bytes], depth: usize) -> &[Bytes]
    ensures { result.now ≡ drop depth names.now }
{
    if depth <= names.len() {
        &names[depth..]
    } else {
        &[]
    }
}

/// Names whose first `depth` are `to` from then on.
pub fn moved_names(
    alloc: Global,
    depth: usize,
    to: &[Bytes],
    names: &[Bytes],
) -> Result<Listing<Bytes>, AllocError>
    ensures { IfOk result (λ made. made ≡ to.now ++ drop depth names.now) }
{
    let mut made = copy_names(alloc, to)?;
    push_names(alloc, &mut made, names_from(names, depth))?;
    Ok(made)
}
