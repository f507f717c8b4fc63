//! Where bytes stand, and the windows in which they are read.

use qfs_stripe::{Layout, LayoutCalls, Spot, Window};
use std::test::Fail;

#[test]
fn a_million_bytes_are_three_rows_of_one_block(rt: HostRuntime) -> Result<(), Fail> {
    let usual = Layout::new(65536, 1024).ok_or("the usual layout")?;
    assert_eq!(rt; usual.blocks_of(1_000_000), 1);
    assert_eq!(rt; usual.rows_of(1_000_000, 0) * usual.s, 196_608);
    Ok(())
}

#[test]
fn bytes_at_the_ends_of_rows_and_blocks(rt: HostRuntime) -> Result<(), Fail> {
    let small = Layout::new(16, 2).ok_or("a small layout")?;
    let known = [
        (95, 0, 0, 5, 15),
        (96, 0, 1, 0, 16),
        (191, 0, 1, 5, 31),
        (192, 1, 0, 0, 0),
    ];
    for (offset, index, row, slot, at) in known {
        let wanted = Spot {
            index,
            row,
            slot,
            at,
        };
        assert!(rt; small.place_of(offset) == wanted);
        assert_eq!(rt; small.offset_of(index, slot, at), offset);
    }
    Ok(())
}

fn window(index: u32, first_row: u32, rows: u32) -> Window {
    Window {
        index,
        first_row,
        rows,
    }
}

// A row has 96 bytes and a block 40 rows. The bytes 1,500 to 4,399 lie in the rows 15 to 45.
#[test]
fn a_range_by_its_windows(rt: HostRuntime) -> Result<(), Fail> {
    let layout = Layout::new(16, 40).ok_or("a layout")?;
    let windows: Vec<Window> = layout.windows(4400, 1500, 3000).collect(rt.alloc())?;
    let wanted = [
        window(0, 15, 1),
        window(0, 16, 16),
        window(0, 32, 8),
        window(1, 0, 6),
    ];
    assert!(rt; windows.as_slice() == wanted.as_slice());
    let blocks = layout.blocks_touched(1500, 4400);
    assert_eq!(rt; (blocks.start, blocks.end), (0, 2));
    let second: Vec<Window> = layout.windows_in(1, 1500, 4400).collect(rt.alloc())?;
    assert!(rt; second.as_slice() == [window(1, 0, 6)].as_slice());
    assert!(rt; layout.windows(4400, 4400, 3000).next().is_none());
    Ok(())
}
