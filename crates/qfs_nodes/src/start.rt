//! What a world is made of at its start.
ghost use Rattle.std.specs.Prelude.{◌≡◌, ◌+◌, ◌≤◌, ◌<◌, ◌^◌, ◌++◌, [], length, map, take, drop, All, IfOk, OnOk, vec_len, vec_capacity};
ghost use Rattle.qfs_base.specs.Rules.{rules_of};
ghost use Rattle.qfs_base.specs.Shape.{IsStripe};
ghost use Rattle.qfs_base.specs.Sizes.{MOST_SERVERS};
ghost use Rattle.qfs_model_meta.specs.Step.{opening};
ghost use Rattle.qfs_nodes.specs.Actors.{size_before, sizes_of, starts_from};
ghost use Rattle.qfs_nodes.specs.Nodes.{IsNew, nodes_with, stored_over, stores_over};
ghost use Rattle.qfs_nodes.specs.Scripts.{AreBuilt, IsRunnable, commands_by_actor, meta_of};
ghost use Rattle.qfs_nodes.specs.declared.node.NodeState.TheVariants as Node;

use crate::node::NodeState;
use qfs_actor::Actor;
use qfs_base::command::Command;
use qfs_base::listing::Listing;
use qfs_base::rules::Rules;
use qfs_base::script::{Commands, Phase, Script};
use qfs_device::ChunkDevice;
use qfs_meta::Meta;
use qfs_store::Store;
use std::alloc::{AllocError, Global};

/// The nodes and actors of a world at its start, but for the chunk servers.
pub struct Prepared<D: ChunkDevice> {
    pub nodes: Vec<NodeState<D>>,
    pub actors: Vec<Actor>,
    pub phases: Vec<usize>,
}

/// Takes all memory that a world takes at its start.
pub fn prepare<D: ChunkDevice>(alloc: Global, script: &Script) -> Result<Prepared<D>, AllocError>
    requires { IsRunnable script.now }
    ensures nodes { IfOk result (λ it. it.nodes.items
        ≡ nodes_with (meta_of script.now (opening script.now.servers)) []) }
    ensures room { IfOk result (λ it. vec_len it.nodes + script.now.servers
        ≤ vec_capacity it.nodes) }
    ensures actors { IfOk result (λ it. it.actors.items
        ≡ starts_from (rules_of script.now) 1 (commands_by_actor script.now)) }
    ensures phases { IfOk result (λ it. it.phases.items ≡ sizes_of script.now.phases) }
{
    let nodes = first_node(alloc, script)?;
    let actors = first_actors(alloc, script)?;
    let phases = phase_sizes(alloc, script)?;
    Ok(Prepared {
        nodes,
        actors,
        phases,
    })
}

/// The metaserver as the only node, with room for one behind it for each chunk server.
fn first_node<D: ChunkDevice>(
    alloc: Global,
    script: &Script,
) -> Result<Vec<NodeState<D>>, AllocError>
    requires { script.now.servers ≤ MOST_SERVERS }
    ensures node { IfOk result (λ nodes. nodes.items
        ≡ nodes_with (meta_of script.now (opening script.now.servers)) []) }
    ensures room { IfOk result (λ nodes. vec_len nodes + script.now.servers
        ≤ vec_capacity nodes) }
{
    let mut nodes = Vec::with_capacity(alloc, script.servers as usize + 1)?;
    let meta = Meta::new(alloc, script.layout, script.servers, script.term)?;
    nodes.push_reserved(NodeState::Meta(meta));
    Ok(nodes)
}

/// Makes the first `servers` devices those of chunk servers, and puts these at the end of the
/// nodes. The other devices move down.
pub fn take_devices<D: ChunkDevice>(
    alloc: Global,
    devices: &mut Vec<D>,
    nodes: &mut Vec<NodeState<D>>,
    servers: u16,
    stripe: u32,
)
    requires enough { servers ≤ length devices.old.items }
    requires stripe { IsStripe stripe }
    requires fresh { All (IsNew D.told) devices.old.items }
    requires room { vec_len nodes.old + servers ≤ vec_capacity nodes.old }
    ensures nodes { nodes.new.items ≡ nodes.old.items
        ++ map Node.Store (stores_over D.told D.faults stripe (take servers devices.old.items)) }
    ensures devices { devices.new.items ≡ drop servers devices.old.items }
    ensures capacity { vec_capacity devices.new ≡ vec_capacity devices.old }
{
    for _ in 0..servers {
        let device = devices.remove(0);
        nodes.push_reserved(new_server(alloc, device, stripe));
    }
}

/// A chunk server over a device.
fn new_server<D: ChunkDevice>(alloc: Global, device: D, stripe: u32) -> NodeState<D>
    requires fresh { IsNew D.told device }
    requires stripe { IsStripe stripe }
    ensures { result ≡ Node.Store (stored_over D.told D.faults stripe device) }
{
    NodeState::Store(Store::new(alloc, device, stripe))
}

/// The rules of a script. A get opens its file once: only puts and gets are built so far, and none
/// of them takes a copy away.
fn rules_of(script: &Script) -> Rules
    requires { IsRunnable script.now }
    ensures { result ≡ rules_of script.now }
{
    Rules {
        layout: script.layout,
        term: script.term,
        tries: 1,
    }
}

/// The actors of a script, at their first commands.
fn first_actors(alloc: Global, script: &Script) -> Result<Vec<Actor>, AllocError>
    requires { IsRunnable script.now }
    ensures { IfOk result (λ actors. actors.items
        ≡ starts_from (rules_of script.now) 1 (commands_by_actor script.now)) }
{
    let rules = rules_of(script);
    let mut actors = Vec::new(alloc);
    let phases = script.phases.as_slice();
    for phase in phases {
        add_phase(alloc, &rules, &mut actors, phase.as_slice())?;
    }
    Ok(actors)
}

/// Puts the actors of a phase behind those that are there.
fn add_phase(
    alloc: Global,
    rules: &Rules,
    actors: &mut Vec<Actor>,
    phase: &[Commands],
) -> Result<(), AllocError>
    requires tries { 1 ≤ rules.now.tries }
    requires few { length actors.old.items + length phase.now < 2 ^ 16 }
    requires built { All AreBuilt phase.now }
    ensures { OnOk result (actors.new.items
        ≡ actors.old.items ++ starts_from rules.now (length actors.old.items + 1) phase.now) }
{
    for commands in phase {
        let number = actors.len() as u16 + 1;
        let commands = copy_commands(alloc, commands.as_slice())?;
        actors.push(Actor::new(alloc, *rules, number, commands))?;
    }
    Ok(())
}

/// The same commands once more.
fn copy_commands(alloc: Global, commands: &[Command]) -> Result<Commands, AllocError>
    ensures { IfOk result (λ copy. copy ≡ commands.now) }
{
    let mut copy = Commands::with_capacity(alloc, commands.len())?;
    for command in commands {
        copy.push(copy_command(command)?)?;
    }
    Ok(copy)
}

/// The same command once more.
fn copy_command(command: &Command) -> Result<Command, AllocError>
    ensures { IfOk result (λ copy. copy ≡ command.now) }
{
    command.clone()
}

/// How many actors each phase has, but for phases without actors.
fn phase_sizes(alloc: Global, script: &Script) -> Result<Vec<usize>, AllocError>
    ensures { IfOk result (λ sizes. sizes.items ≡ sizes_of script.now.phases) }
{
    let mut sizes = Vec::new(alloc);
    let phases = script.phases.as_slice();
    for phase in phases {
        push_size(&mut sizes, phase)?;
    }
    Ok(sizes)
}

/// Puts the number of a phase's actors behind the others, unless it has none.
fn push_size(sizes: &mut Vec<usize>, phase: &Phase) -> Result<(), AllocError>
    ensures { OnOk result (sizes.new.items ≡ sizes.old.items ++ size_before [] phase.now) }
{
    if phase.is_empty() {
        return Ok(());
    }
    sizes.push(phase.len())?;
    Ok(())
}
