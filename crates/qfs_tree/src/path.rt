//! The calls on a path.

ghost use Rattle.std.specs.Prelude.{◌≡◌, ℕ, List, Some, IfOk, IfSome};
ghost use Rattle.qfs_base.specs.Path.{SpellsPath};

use qfs_base::path::{Path, path_from};
use std::alloc::{AllocError, Global};

/// The calls on a path.
pub trait PathCalls {
    /// The path that the text spells. None says that it spells none: a path is `/` alone, or 1 to
    /// 32 times a slash and a name; a name has 1 to 255 bytes from 0x21 to 0x7E without a slash,
    /// and is neither `.` nor `..`.
    fn read(alloc: Global, text: &[u8]) -> Result<Option<Path>, AllocError>
        ensures found { IfOk result (λ found. IfSome found (λ path. SpellsPath text.now path)) }
        ensures only { IfOk result (λ found. (names : List (List ℕ)) → SpellsPath text.now names → found ≡ Some names) };
}

impl PathCalls for Path {
    fn read(alloc: Global, text: &[u8]) -> Result<Option<Path>, AllocError> {
        path_from(alloc, text)
    }
}
