//! Texts that are paths, and texts that aren't.

use qfs_tree::{Path, PathCalls};
use std::test::Fail;

#[test]
fn a_path_is_read_and_printed(rt: HostRuntime) -> Result<(), Fail> {
    for text in [b"/".as_slice(), b"/d/f".as_slice(), b"/...".as_slice()] {
        let path = Path::read(rt.alloc(), text)?.ok_or("a path")?;
        let mut printed = Vec::new(rt.alloc());
        path.print(&mut printed)?;
        assert_eq!(rt; printed.as_slice(), text);
    }
    Ok(())
}

#[test]
fn other_texts_are_no_paths(rt: HostRuntime) -> Result<(), Fail> {
    let others = [
        b"".as_slice(),
        b"d",
        b"//",
        b"/d/",
        b"/.",
        b"/d/../f",
        b"/d f",
    ];
    for text in others {
        assert!(rt; Path::read(rt.alloc(), text)?.is_none());
    }
    Ok(())
}
