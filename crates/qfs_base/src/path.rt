//! The paths of the tree, and their text.

ghost use Rattle.std.specs.Prelude.{◌≡◌, ℕ, ◌<◌, ◌∷◌, ◌++◌, [], List, length, IsTrue, ◌↔◌, position, IfSome, IfOk, OnOk, OnErr};
ghost use Rattle.qfs_base.specs.Path.{IsName, SpellsPath, FindsSpelled, FindsNames, slash, is_slash, path_text, names_text, split_names, names_left};

use crate::listing::Listing;
use std::alloc::{AllocError, Global};
use std::marker::Model;

/// The most names of a path.
const MOST_NAMES: usize = 32;

/// The most bytes of a name.
const MOST_NAME_BYTES: usize = 255;

/// A path: the names from the root down, of which the root has none. Contracts see the list of
/// names.
#[derive(Clone, PartialEq, Eq, PartialOrd, Ord, Drop)]
pub struct Path {
    pub names: Listing<Listing<u8>>,
}

impl Model for Path {
    ghost use Rattle.std.specs.Prelude.{ℕ, List};
    ghost use Rattle.qfs_base.specs.Path.{IsPath};

    ghost Value = { List (List ℕ) };

    ghost view = { λ path. path.names };

    ghost invariant = { λ path. IsPath path.names };

    ghost inverse = { λ names. record { names = names } };
}

impl Path {
    /// Puts the text of the path at the end of `out`. On want of memory `out` stays as it was.
    pub fn print(&self, out: &mut Vec<u8>) -> Result<(), AllocError>
        ensures ok { OnOk result (out.new.items ≡ out.old.items ++ path_text self.now) }
        ensures err { OnErr result (out.new.items ≡ out.old.items) }
    {
        let start = out.len();
        let printed = if self.names.is_empty() {
            print_root(out)
        } else {
            print_names(self.names.as_slice(), out)
        };
        if printed.is_err() {
            out.truncate(start);
        }
        printed
    }
}

/// Puts the text of the root at the end of `out`.
fn print_root(out: &mut Vec<u8>) -> Result<(), AllocError>
    ensures ok { OnOk result (out.new.items ≡ out.old.items ++ path_text []) }
    ensures err { OnErr result (out.new.items ≡ out.old.items) }
{
    out.push(b'/')?;
    Ok(())
}

/// Puts these names at the end of `out`, each with a slash before it. On want of memory only the
/// front of that text stands there.
fn print_names(names: &[Listing<u8>], out: &mut Vec<u8>) -> Result<(), AllocError>
    ensures ok { OnOk result (out.new.items ≡ out.old.items ++ names_text names.now) }
    ensures err { OnErr result ((front : List ℕ) × (out.new.items ≡ out.old.items ++ front)) }
{
    for name in names {
        out.push(b'/')?;
        out.extend_from_slice(name.as_slice())?;
    }
    Ok(())
}

/// The path that the text spells. None says that it spells none: a path is `/` alone, or 1 to 32
/// times a slash and a name; a name has 1 to 255 bytes from 0x21 to 0x7E without a slash, and is
/// neither `.` nor `..`.
pub fn path_from(alloc: Global, text: &[u8]) -> Result<Option<Path>, AllocError>
    ensures found { IfOk result (λ found. IfSome found (SpellsPath text.now)) }
    ensures only { IfOk result (FindsSpelled text.now) }
{
    match text {
        [b'/', below @ ..] => path_below(alloc, below),
        _ => Ok(None),
    }
}

/// The path whose text is a slash and these bytes, or None where that is no path.
fn path_below(alloc: Global, below: &[u8]) -> Result<Option<Path>, AllocError>
    ensures found { IfOk result (λ found. IfSome found (SpellsPath (slash ∷ below.now))) }
    ensures only { IfOk result (FindsSpelled (slash ∷ below.now)) }
{
    if below.is_empty() {
        let names = Listing::new(alloc);
        return Ok(Some(Path { names }));
    }
    names_from(alloc, below)
}

/// The path whose names stand in the text with a slash between two, or None where they are no
/// names of a path.
fn names_from(alloc: Global, text: &[u8]) -> Result<Option<Path>, AllocError>
    ensures { IfOk result (λ found. FindsNames text.now found) }
{
    let mut names = Listing::new(alloc);
    let mut rest = Some(text);
    while let Some(left) = rest {
        let (name, more) = first_name(left);
        if names.len() == MOST_NAMES || !is_name(name) {
            return Ok(None);
        }
        names.push(Listing::from_slice(alloc, name)?)?;
        rest = more;
    }
    Ok(Some(Path { names }))
}

/// The name before the first slash, and the text behind that slash. None says that there is none.
fn first_name(text: &[u8]) -> (&[u8], Option<&[u8]>)
    ensures names { split_names text.now ≡ result.0.now ∷ names_left result.1 }
    ensures shorter { IfSome result.1 (λ more. length more.now < length text.now) }
{
    match first_slash(text) {
        Some(at) => (&text[..at], Some(&text[at + 1..])),
        None => (text, None),
    }
}

/// The place of the first slash.
fn first_slash(text: &[u8]) -> Option<usize>
    ensures { result ≡ position is_slash text.now }
{
    text.iter().position(|byte| *byte == b'/')
}

/// Whether these bytes may be a name of a path.
fn is_name(name: &[u8]) -> bool
    ensures { IsTrue result ↔ IsName name.now }
{
    !name.is_empty()
        && name.len() <= MOST_NAME_BYTES
        && name != b".".as_slice()
        && name != b"..".as_slice()
        && name
            .iter()
            .all(|byte| b'!' <= *byte && *byte <= b'~' && *byte != b'/')
}
