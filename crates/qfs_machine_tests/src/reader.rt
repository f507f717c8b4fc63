//! Gets among nodes that answer as a test says.
ghost use Rattle.std.specs.Prelude.{◌≤◌};

use crate::nodes::{Nodes, run};
use qfs_base::chunk::Copy;
use qfs_base::command::{Excerpt, Range, Reply, Shown};
use qfs_base::listing::Listing;
use qfs_base::lists::{Bytes, Cause, Nine};
use qfs_base::numbers::Slot;
use qfs_base::path::path_from;
use qfs_base::reply::{ChunkAnswer, ChunkReply, MetaReply, NodeReply, Opened};
use qfs_base::request::{ChunkRequest, MetaRequest, NodeRequest};
use qfs_reader::Reader;
use qfs_stripe::{Layout, LayoutCalls};
use std::alloc::{AllocError, Global};
use std::test::Fail;

/// Nodes that hold one file of one block in stripes of 16 bytes, whose byte at offset o is one more
/// than o % 251. The devices of the first servers fail. Of a file that has no more than a stripe the
/// parity slots are as slot 0.
#[derive(Drop)]
struct GetNodes {
    alloc: Global,
    len: u32,
    failing: u16,
    /// Whether the devices work again once the lease was given back.
    mends: bool,
    openings: u8,
    fetched: Listing<u8>,
    released: bool,
}

impl GetNodes {
    fn new(alloc: Global, len: u32, failing: u16) -> GetNodes {
        GetNodes {
            alloc,
            len,
            failing,
            mends: false,
            openings: 0,
            fetched: Listing::new(alloc),
            released: false,
        }
    }

    /// The byte of a slot's chunk at an offset.
    fn byte_of(&self, slot: Slot, at: u64) -> u8 {
        let column = if slot < 6 { u64::from(slot) } else { 0 };
        let row = (at / 16).wrapping_mul(96);
        let offset = row
            .wrapping_add(column.wrapping_mul(16))
            .wrapping_add(at % 16);
        if offset < u64::from(self.len) {
            (offset % 251) as u8 + 1
        } else {
            0
        }
    }

    fn opened(&self) -> Result<MetaReply, AllocError> {
        let mut nine: Nine = Listing::new(self.alloc);
        for slot in 0..9u16 {
            nine.push(Some(Copy {
                server: slot + 1,
                life: 1,
                version: 1,
            }))?;
        }
        let mut blocks = Listing::new(self.alloc);
        blocks.push(nine)?;
        Ok(MetaReply::Opened(Opened {
            lease: 5,
            place: 2,
            file: 7,
            len: self.len,
            blocks,
        }))
    }

    fn fetch(
        &mut self,
        server: u16,
        slot: Slot,
        from: u32,
        room: Bytes,
    ) -> Result<ChunkReply, AllocError> {
        self.fetched.push(slot)?;
        if server <= self.failing {
            let answer = ChunkAnswer::Fault;
            return Ok(ChunkReply { answer, room });
        }
        let mut bytes = Listing::new(self.alloc);
        for i in 0..room.len() {
            bytes.push(self.byte_of(slot, u64::from(from).wrapping_add(i as u64)))?;
        }
        let answer = ChunkAnswer::Fetched;
        Ok(ChunkReply {
            answer,
            room: bytes,
        })
    }
}

impl Nodes for GetNodes {
    fn serve(&mut self, request: NodeRequest) -> Result<NodeReply, AllocError> {
        match request {
            NodeRequest::Meta(MetaRequest::OpenFile { .. }) => {
                self.openings = self.openings.saturating_add(1);
                Ok(NodeReply::Meta(self.opened()?))
            }
            NodeRequest::Meta(MetaRequest::Release { lease }) => {
                self.released = lease == 5;
                if self.mends {
                    self.failing = 0;
                }
                Ok(NodeReply::Meta(MetaReply::Done { place: 2 }))
            }
            NodeRequest::Chunk(
                server,
                ChunkRequest::Fetch {
                    key,
                    from,
                    room,
                    ..
                },
            ) => Ok(NodeReply::Chunk(self.fetch(server, key.slot, from, room)?)),
            _ => Ok(NodeReply::Meta(MetaReply::Nothing)),
        }
    }
}

/// The report of a get of a range of the nodes' file, in chunks of up to 40 rows, that opens it up to
/// `tries` times.
fn report_of(
    alloc: Global,
    range: Option<Range>,
    tries: u32,
    nodes: &mut GetNodes,
) -> Result<Reply<Excerpt>, Fail>
    requires { 1 ≤ tries }
{
    let layout = Layout::new(16, 40).ok_or("a layout")?;
    let path = path_from(alloc, b"/a")?.ok_or("a path")?;
    run(Reader::new(alloc, path, range, layout, tries), nodes)
}

/// Whether a report tells these bytes.
fn tells(report: &Reply<Excerpt>, bytes: &[u8]) -> bool {
    match report {
        Reply::Read {
            place: 2,
            read: Excerpt {
                len,
                shown: Shown::Whole(whole),
            },
        } => *len as usize == bytes.len() && whole.as_slice() == bytes,
        _ => false,
    }
}

/// Whether a report says that the devices of the first four slots of block 0 failed.
fn tells_four_faults(report: &Reply<Excerpt>) -> bool {
    match report {
        Reply::ReadTooFew {
            place: 2,
            index: 0,
            causes,
        } => {
            causes.len() == 4
                && causes.iter().enumerate().all(|(slot, found)| {
                    usize::from(found.slot) == slot && matches!(found.cause, Cause::Fault)
                })
        }
        _ => false,
    }
}

#[test]
fn three_failed_slots_are_restored(rt: HostRuntime) -> Result<(), Fail> {
    let mut nodes = GetNodes::new(rt.alloc(), 5, 3);
    let report = report_of(rt.alloc(), None, 1, &mut nodes)?;
    assert!(rt; tells(&report, &[1, 2, 3, 4, 5]));
    assert_eq!(rt;
        nodes.fetched.as_slice(),
        [0, 1, 2, 3, 4, 5, 6, 7, 8].as_slice()
    );
    assert!(rt; nodes.released);
    Ok(())
}

#[test]
fn four_failed_slots_are_too_many(rt: HostRuntime) -> Result<(), Fail> {
    let mut nodes = GetNodes::new(rt.alloc(), 5, 4);
    let report = report_of(rt.alloc(), None, 1, &mut nodes)?;
    assert!(rt; tells_four_faults(&report));
    assert_eq!(rt; nodes.fetched.as_slice(), [0, 1, 2, 3].as_slice());
    assert!(rt; nodes.released);
    Ok(())
}

#[test]
fn a_second_opening_reads_anew(rt: HostRuntime) -> Result<(), Fail> {
    let mut nodes = GetNodes::new(rt.alloc(), 5, 4);
    nodes.mends = true;
    let report = report_of(rt.alloc(), None, 2, &mut nodes)?;
    assert!(rt; tells(&report, &[1, 2, 3, 4, 5]));
    assert_eq!(rt;
        nodes.fetched.as_slice(),
        [0, 1, 2, 3, 0, 1, 2, 3, 4, 5].as_slice()
    );
    assert_eq!(rt; nodes.openings, 2);
    Ok(())
}

#[test]
fn two_attempts_are_no_three(rt: HostRuntime) -> Result<(), Fail> {
    let mut nodes = GetNodes::new(rt.alloc(), 5, 4);
    let report = report_of(rt.alloc(), None, 2, &mut nodes)?;
    assert!(rt; tells_four_faults(&report));
    assert_eq!(rt; nodes.openings, 2);
    Ok(())
}

// A row has 96 bytes, so that the last row of the first window ends at byte 1,536.
#[test]
fn a_range_over_two_windows(rt: HostRuntime) -> Result<(), Fail> {
    let mut nodes = GetNodes::new(rt.alloc(), 1632, 0);
    let range = Range {
        from: 1534,
        count: 4,
    };
    let report = report_of(rt.alloc(), Some(range), 1, &mut nodes)?;
    assert!(rt; tells(&report, &[29, 30, 31, 32]));
    assert_eq!(rt;
        nodes.fetched.as_slice(),
        [0, 1, 2, 3, 4, 5, 0, 1, 2, 3, 4, 5].as_slice()
    );
    Ok(())
}
