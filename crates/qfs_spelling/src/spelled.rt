//! What records are made of: values with one spelling, and lists of them.
ghost use Rattle.std.specs.Prelude.{◌≡◌, ◌++◌, OnOk, OnErr, IfOk};
ghost use Rattle.qfs_spelling.specs.Fronts.{Extends, Finds};
ghost use Rattle.qfs_record.specs.Part.{Part, listed, optional};

use qfs_base::listing::Listing;
use qfs_record::{put_u8, put_u32, u32_at};
use std::alloc::{AllocError, Global};

/// A value that records hold.
pub trait Spelled: Drop + Sized {
    /// Which values have a spelling, what it is, and how it is read.
    ghost part: { Part Self };

    /// Puts the spelling at the end of `out`. On want of memory only a front of it stands there.
    fn put(&self, out: &mut Vec<u8>) -> Result<(), AllocError>
        requires { part.Fits self.now }
        ensures ok { OnOk result (out.new.items ≡ out.old.items ++ part.text self.now) }
        ensures err { OnErr result (Extends out.old.items out.new.items) };

    /// The value at the front of bytes, and what follows it. None says that no front of them spells
    /// one.
    fn read_at(alloc: Global, bytes: &[u8]) -> Result<Option<(Self, &[u8])>, AllocError>
        ensures { IfOk result (Finds part bytes.now) };
}

/// A byte 0, or a byte 1 and the value.
impl<T: Spelled> Spelled for Option<T> {
    ghost part = { optional T.part };

    fn put(&self, out: &mut Vec<u8>) -> Result<(), AllocError> {
        match self {
            None => put_u8(0, out),
            Some(value) => {
                put_u8(1, out)?;
                value.put(out)
            }
        }
    }

    fn read_at(alloc: Global, bytes: &[u8]) -> Result<Option<(Option<T>, &[u8])>, AllocError> {
        match bytes {
            [0, rest @ ..] => Ok(Some((None, rest))),
            [1, rest @ ..] => {
                let Some((value, rest)) = T::read_at(alloc, rest)? else {
                    return Ok(None);
                };
                Ok(Some((Some(value), rest)))
            }
            _ => Ok(None),
        }
    }
}

/// The values one after another, with their count before them.
impl<T: Spelled> Spelled for Listing<T> {
    ghost part = { listed T.part };

    fn put(&self, out: &mut Vec<u8>) -> Result<(), AllocError> {
        put_list(self.as_slice(), out)
    }

    fn read_at(alloc: Global, bytes: &[u8]) -> Result<Option<(Listing<T>, &[u8])>, AllocError> {
        list_at(alloc, bytes)
    }
}

/// Puts values at the end of `out`, one after another, with their count before them. On want of
/// memory only a front of that stands there.
fn put_list<T: Spelled>(values: &[T], out: &mut Vec<u8>) -> Result<(), AllocError>
    requires { (listed T.part).Fits values.now }
    ensures ok { OnOk result (out.new.items ≡ out.old.items ++ (listed T.part).text values.now) }
    ensures err { OnErr result (Extends out.old.items out.new.items) }
{
    put_u32(values.len() as u32, out)?;
    for value in values {
        value.put(out)?;
    }
    Ok(())
}

/// The values at the front of bytes, whose count stands before them, and what follows them. None
/// says that no front of the bytes spells such a list.
fn list_at<T: Spelled>(
    alloc: Global,
    bytes: &[u8],
) -> Result<Option<(Listing<T>, &[u8])>, AllocError>
    ensures { IfOk result (Finds (listed T.part) bytes.now) }
{
    let Some((count, mut rest)) = u32_at(bytes) else {
        return Ok(None);
    };
    let mut values = Listing::new(alloc);
    for i in 0..count {
        let Some((value, more)) = T::read_at(alloc, rest)? else {
            return Ok(None);
        };
        values.push(value)?;
        rest = more;
    }
    Ok(Some((values, rest)))
}
