//! What is left of nodes and actors at the end.
ghost use Rattle.std.specs.Prelude.{◌≡◌, ◌+◌, ◌≤◌, ◌++◌, length, map, IfOk, vec_capacity, ◌<◌, ◌∷◌};
ghost use Rattle.qfs_nodes.specs.Actors.{actors_of, lines_of_actors};
ghost use Rattle.qfs_nodes.specs.Nodes.{AreHome, StartsWithMeta, image_of, stores_of};

use crate::node::NodeState;
use qfs_actor::Actor;
use qfs_base::command::ReplyList;
use qfs_base::image::MetaImage;
use qfs_base::listing::Listing;
use qfs_device::ChunkDevice;
use std::alloc::{AllocError, Global};

/// Takes nodes and actors apart: the chunk servers' devices go before the others, in the order of
/// the servers, and what is left are the metaserver's state and the replies of the actors. On want
/// of memory the devices go home all the same.
pub fn take_apart<D: ChunkDevice>(
    alloc: Global,
    nodes: Vec<NodeState<D>>,
    actors: Vec<Actor>,
    devices: &mut Vec<D>,
) -> Result<(MetaImage, ReplyList), AllocError>
    requires nodes { StartsWithMeta nodes.items }
    requires room { length (stores_of nodes.items) + length devices.old.items
        ≤ vec_capacity devices.old }
    ensures home { AreHome D.told D.faults (stores_of nodes.items)
        devices.old.items devices.new.items }
    ensures image { IfOk result (λ left. left.0 ≡ image_of nodes.items) }
    ensures replies { IfOk result (λ left. left.1 ≡ lines_of_actors (actors_of actors.items)) }
{
    let image = hand_back(nodes, devices);
    let replies = all_replies(alloc, actors)?;
    Ok((image, replies))
}

/// Takes the nodes apart. The chunk servers' devices go before the others, in the order of the
/// servers.
fn hand_back<D: ChunkDevice>(nodes: Vec<NodeState<D>>, devices: &mut Vec<D>) -> MetaImage
    requires nodes { StartsWithMeta nodes.items }
    requires room { length (stores_of nodes.items) + length devices.old.items
        ≤ vec_capacity devices.old }
    ensures image { result ≡ image_of nodes.items }
    ensures home { AreHome D.told D.faults (stores_of nodes.items)
        devices.old.items devices.new.items }
{
    let mut nodes = nodes;
    while let Some(node) = nodes.pop() {
        match node {
            NodeState::Store(store) => put_first(devices, store.into_device()),
            NodeState::Meta(meta) => return meta.into_image(),
        }
    }
    unreachable!()
}

/// Puts a device before the others.
fn put_first<D: ChunkDevice>(devices: &mut Vec<D>, device: D)
    requires { length devices.old.items < vec_capacity devices.old }
    ensures devices { devices.new.items ≡ device ∷ devices.old.items }
    ensures capacity { vec_capacity devices.old ≤ vec_capacity devices.new }
{
    if devices.insert(0, device).is_err() {
        unreachable!();
    }
}

/// The replies of all actors, one after another.
fn all_replies(alloc: Global, actors: Vec<Actor>) -> Result<ReplyList, AllocError>
    ensures { IfOk result (λ replies. replies ≡ lines_of_actors (actors_of actors.items)) }
{
    let mut replies = ReplyList::new(alloc);
    for actor in actors {
        replies.append(actor.into_replies())?;
    }
    Ok(replies)
}
