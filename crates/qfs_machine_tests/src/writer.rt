//! Puts among nodes that answer as a test says.

use crate::nodes::{Nodes, run};
use qfs_base::chunk::BlockId;
use qfs_base::command::{Excerpt, Reply};
use qfs_base::listing::Listing;
use qfs_base::path::path_from;
use qfs_base::reply::{ChunkAnswer, ChunkReply, Granted, MetaReply, NodeReply};
use qfs_base::request::{ChunkRequest, MetaRequest, NodeRequest};
use qfs_recipe::{Form, Recipe};
use qfs_stripe::{Layout, LayoutCalls};
use qfs_writer::Writer;
use std::alloc::{AllocError, Global};
use std::test::Fail;

/// Nodes of which the first servers are down, or of which there are no servers at all. They keep a
/// letter for each request: C creates, G grants, A grants again, P nodes, c closes, x gives up.
/// Of each chunk they keep the first byte.
#[derive(Drop)]
struct PutNodes {
    alloc: Global,
    servers_down: u16,
    has_servers: bool,
    granted: u16,
    letters: Listing<u8>,
    firsts: Listing<u8>,
}

impl PutNodes {
    fn new(alloc: Global, servers_down: u16, has_servers: bool) -> PutNodes {
        PutNodes {
            alloc,
            servers_down,
            has_servers,
            granted: 0,
            letters: Listing::new(alloc),
            firsts: Listing::new(alloc),
        }
    }

    fn grant(&mut self, index: u32, slot: u8) -> MetaReply {
        let block = BlockId { file: 7, index };
        if !self.has_servers {
            return MetaReply::NoServer { block, slot };
        }
        self.granted = self.granted.saturating_add(1);
        MetaReply::Granted(Granted {
            block,
            slot,
            version: 1,
            server: self.granted,
            life: 1,
            lease: 0,
            sources: Listing::new(self.alloc),
            rows: 1,
        })
    }

    fn serve_meta(&mut self, request: MetaRequest) -> Result<MetaReply, AllocError> {
        let (letter, reply) = match request {
            MetaRequest::Create { .. } => (b'C', MetaReply::Created { file: 7, place: 3 }),
            MetaRequest::Grant {
                index,
                slot,
                again,
                ..
            } => (if again { b'A' } else { b'G' }, self.grant(index, slot)),
            MetaRequest::Close { .. } => (b'c', MetaReply::Done { place: 4 }),
            MetaRequest::Abort { .. } => (b'x', MetaReply::Done { place: 5 }),
            _ => (b'?', MetaReply::Nothing),
        };
        self.letters.push(letter)?;
        Ok(reply)
    }
}

impl Nodes for PutNodes {
    fn serve(&mut self, request: NodeRequest) -> Result<NodeReply, AllocError> {
        match request {
            NodeRequest::Meta(request) => Ok(NodeReply::Meta(self.serve_meta(request)?)),
            NodeRequest::Chunk(server, ChunkRequest::Put { bytes, .. }) => {
                self.letters.push(b'P')?;
                let answer = if server <= self.servers_down {
                    ChunkAnswer::Down
                } else {
                    self.firsts.push(bytes.get(0).copied().unwrap_or(0xee))?;
                    ChunkAnswer::Stored
                };
                let room = Listing::new(self.alloc);
                Ok(NodeReply::Chunk(ChunkReply { answer, room }))
            }
            NodeRequest::Chunk(..) => Ok(NodeReply::Meta(MetaReply::Nothing)),
        }
    }
}

/// The report of a put of 96 times the byte 1: one row, in stripes of 16 bytes.
fn report_of_ones(alloc: Global, nodes: &mut PutNodes) -> Result<Reply<Excerpt>, Fail> {
    let layout = Layout::new(16, 2).ok_or("a layout")?;
    let path = path_from(alloc, b"/a")?.ok_or("a path")?;
    let recipe = Recipe {
        form: Form::Fill { byte: 1, len: 96 },
    };
    run(Writer::new(alloc, layout, 1, path, recipe), nodes)
}

#[test]
fn a_put_stores_nine_slots_and_closes(rt: HostRuntime) -> Result<(), Fail> {
    let mut nodes = PutNodes::new(rt.alloc(), 0, true);
    let report = report_of_ones(rt.alloc(), &mut nodes)?;
    assert!(rt; matches!(report, Reply::Stored { place: 4, len: 96 }));
    assert_eq!(rt;
        nodes.letters.as_slice(),
        b"CGPGPGPGPGPGPGPGPGPc".as_slice()
    );
    // The sums of 2^0, of 2^i and of 2^2i, for i from 0 to 5.
    assert_eq!(rt;
        nodes.firsts.as_slice(),
        [1, 1, 1, 1, 1, 1, 0, 0x3f, 0x3c].as_slice()
    );
    Ok(())
}

#[test]
fn a_slot_whose_server_is_down_is_granted_again(rt: HostRuntime) -> Result<(), Fail> {
    let mut nodes = PutNodes::new(rt.alloc(), 2, true);
    let report = report_of_ones(rt.alloc(), &mut nodes)?;
    assert!(rt; matches!(report, Reply::Stored { place: 4, len: 96 }));
    assert_eq!(rt;
        nodes.letters.as_slice(),
        b"CGPAPAPGPGPGPGPGPGPGPGPc".as_slice()
    );
    Ok(())
}

#[test]
fn a_put_without_a_server_gives_its_file_up(rt: HostRuntime) -> Result<(), Fail> {
    let mut nodes = PutNodes::new(rt.alloc(), 0, false);
    let report = report_of_ones(rt.alloc(), &mut nodes)?;
    assert!(rt;
        matches!(
            report,
            Reply::PutNoServer {
                place: 5,
                index: 0,
                slot: 0
            }
        )
    );
    assert_eq!(rt; nodes.letters.as_slice(), b"CGx".as_slice());
    Ok(())
}
