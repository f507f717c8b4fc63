//! The world at work.
ghost use Rattle.std.specs.Prelude.{◌≡◌, ◌≤◌, ◌<◌, length, map, take, All, IfOk, IfErr, OnErr, false};
ghost use Rattle.std.specs.Option.{option_and_then};
ghost use Rattle.qfs_machine.specs.Asking.{IsOut};
ghost use Rattle.qfs_model_actor.specs.Actor.{has_finished, node_of};
ghost use Rattle.qfs_model_world.specs.World.{numbered};
ghost use Rattle.qfs_nodes.specs.Actors.{lines_of_actors};
ghost use Rattle.qfs_nodes.specs.Nodes.{IsNew};
ghost use Rattle.qfs_nodes.specs.Scripts.{IsRunnable};
ghost use Rattle.qfs_world.specs.AtWork.{TakesTurn, place_in};
ghost use Rattle.qfs_world.specs.Calls.{AreDevicesOf, HasTurn, Starts, TakesStep};
ghost use Rattle.qfs_world.specs.Follows.{IsAfter};
ghost use Rattle.qfs_world.specs.View.{turn_of, with_step};

use crate::parts::{Parts, PartsError, WorldLoadError};
use qfs_actor::Actor;
use qfs_base::history::{Outcome, Step};
use qfs_base::listing::Listing;
use qfs_base::lists::TurnList;
use qfs_base::numbers::{ActorId, NodeId};
use qfs_base::order::Order;
use qfs_base::script::Script;
use qfs_device::{ChunkDevice, LogDisk, MetaDisks};
use qfs_machine::Ghost;
use qfs_nodes::{NodeState, Prepared, current_turn, prepare, take_apart, take_devices, turn_on};
use std::alloc::{AllocError, Global};
use std::marker::Model;
use std::snapshot::Snapshot;

/// The metaserver, the chunk servers and the actors of a script, and the order of the steps that
/// they took. As far as the devices tell what they hold, it is always the world of the
/// definitions after that order. It is taken apart at its end, and never dropped.
pub struct World<D: ChunkDevice, L: LogDisk> {
    alloc: Global,
    script: Snapshot<Script>,
    /// How often the servers' devices had failed at the start.
    counts: Ghost<Listing<u64>>,
    /// The metaserver, and behind it server s at s.
    nodes: Vec<NodeState<D>>,
    /// Actor a stands at a - 1.
    actors: Vec<Actor>,
    /// How many actors each phase has, but for phases without actors.
    phases: Vec<usize>,
    order: Order,
    /// The devices above the script's servers, with room for the others.
    spare: Vec<D>,
    disks: MetaDisks<L>,
}

impl<D: ChunkDevice, L: LogDisk> Model for World<D, L> {
    ghost use Rattle.qfs_world.specs.View.{WorldView, view_of};

    ghost Value = { WorldView D L };

    ghost view = { λ it.
        view_of it.script.value it.counts.value it.nodes.items it.actors.items it.order
        it.spare.items it.disks };

    ghost use Rattle.std.specs.Prelude.{vec_capacity};
    ghost use Rattle.qfs_world.specs.AtWork.{HasDeviceRoom, IsAtWork};

    ghost invariant = { λ it.
        IsAtWork it.script.value it.counts.value it.nodes.items it.actors.items it.phases.items
        it.order
        × HasDeviceRoom it.nodes.items it.spare.items (vec_capacity it.spare) };
}

impl<D: ChunkDevice, L: LogDisk> World<D, L> {
    /// The world in which a script starts. Device s - 1 becomes that of server s; those above the
    /// servers are only kept. An Err says that memory is wanting, and hands devices and disks back
    /// as they came.
    ///
    /// The script has 1 to 64 servers, fewer than 65,536 actors, and for each of them fewer than
    /// 65,536 commands, all of which put or get files. There is a device for each server, and as
    /// far as the devices tell what they hold, all are new.
    pub fn new(
        alloc: Global,
        script: &Script,
        devices: Vec<D>,
        disks: MetaDisks<L>,
    ) -> Result<World<D, L>, WorldLoadError<D, L>>
        requires runnable { IsRunnable script.now }
        requires enough { script.now.servers ≤ length devices.items }
        requires fresh { All (IsNew D.told) devices.items }
        ensures ok { IfOk result (Starts D.told D.faults script.now devices.items disks) }
        ensures err_devices { IfErr result (λ error. error.devices.items ≡ devices.items) }
        ensures err_disks { IfErr result (λ error. error.disks ≡ disks) }
    {
        match prepare(alloc, script) {
            Err(_) => Err(WorldLoadError { devices, disks }),
            Ok(
                Prepared {
                    mut nodes,
                    actors,
                    phases,
                },
            ) => {
                let counts = counts_at_start(&devices, script);
                let mut spare = devices;
                let stripe = script.layout.s;
                take_devices(alloc, &mut spare, &mut nodes, script.servers, stripe);
                Ok(World {
                    alloc,
                    script: Snapshot::of(script),
                    counts,
                    nodes,
                    actors,
                    phases,
                    order: Order::new(alloc),
                    spare,
                    disks,
                })
            }
        }
    }

    /// An actor whose turn it is takes its next step: its node serves its next request, it takes
    /// the reply, and the order has one entry more. The outcome is the one that the reply shows:
    /// Failed says that the node is a server, and that the count of faults of its device rose or
    /// stands at its last value; NoMemory that the node answered so. An Err says that memory is
    /// wanting, and then the world is as it was.
    pub fn step(&mut self, actor: ActorId) -> Result<Outcome, AllocError>
        requires turn { HasTurn self.old actor }
        ensures ok { IfOk result (λ outcome. TakesStep self.old actor outcome self.new) }
        ensures err { OnErr result (self.new ≡ self.old) }
    {
        step_on(
            &mut self.nodes,
            &mut self.actors[actor as usize - 1],
            &mut self.order,
        )
    }

    /// Whose turn it may be: the unfinished actors of the current phase, by number. None is left
    /// where all have finished. An Err says that memory is wanting.
    pub fn turn(&self) -> Result<TurnList, AllocError>
        ensures turn { IfOk result (λ turn. turn ≡ turn_of self.now.script self.now.actors) }
        ensures after { IsAfter self.now }
    {
        current_turn(self.alloc, &self.actors, &self.phases)
    }

    /// The node that an actor goes to next, whose turn it is: 0 is the metaserver, s is server s.
    pub fn goes_to(&self, actor: ActorId) -> Option<NodeId>
        requires { HasTurn self.now actor }
        ensures { result ≡ option_and_then node_of (numbered self.now.actors actor) }
    {
        self.actors[actor as usize - 1].goes_to()
    }

    /// The entries of the steps taken so far.
    pub fn order(&self) -> &Order
        ensures order { result.now ≡ self.now.order }
        ensures after { IsAfter self.now }
    {
        &self.order
    }

    /// Takes the world apart. An Err says that memory is wanting, and hands devices and disks back.
    pub fn into_parts(self) -> Result<Parts<D, L>, PartsError<D, L>>
        ensures devices { IfOk result (λ parts.
            AreDevicesOf D.told D.faults self parts.devices.items) }
        ensures disks { IfOk result (λ parts. parts.disks ≡ self.disks) }
        ensures image { IfOk result (λ parts. parts.image ≡ self.meta) }
        ensures order { IfOk result (λ parts. parts.order ≡ self.order) }
        ensures replies { IfOk result (λ parts. parts.replies ≡ lines_of_actors self.actors) }
        ensures err_devices { IfErr result (λ error.
            AreDevicesOf D.told D.faults self error.devices.items) }
        ensures err_disks { IfErr result (λ error. error.disks ≡ self.disks) }
        ensures after { IsAfter self }
    {
        let World {
            alloc,
            script: _script,
            counts: _counts,
            nodes,
            actors,
            phases: _phases,
            order,
            spare,
            disks,
        } = self;
        let mut devices = spare;
        match take_apart(alloc, nodes, actors, &mut devices) {
            Err(_) => Err(PartsError { devices, disks }),
            Ok((image, replies)) => Ok(Parts {
                devices,
                disks,
                image,
                order,
                replies,
            }),
        }
    }
}

/// How often the devices of a script's servers have failed so far.
fn counts_at_start<D: ChunkDevice>(devices: &Vec<D>, script: &Script) -> Ghost<Listing<u64>>
    ensures { result.value ≡ map D.faults (take script.now.servers devices.now.items) }
{
    Ghost::of(devices, script)
}

/// One step of an actor that hasn't finished, with its entry in the order. On want of memory all is
/// as it was, but for the memory that the actor took.
fn step_on<D: ChunkDevice>(
    nodes: &mut [NodeState<D>],
    actor: &mut Actor,
    order: &mut Order,
) -> Result<Outcome, AllocError>
    requires some { 0 < length nodes.old }
    requires resting { IsOut actor.old.readiness → ⊥ }
    requires unfinished { has_finished actor.old.actor ≡ false }
    ensures turn { IfOk result (λ outcome.
        TakesTurn nodes.old actor.old.actor outcome nodes.new actor.new.actor) }
    ensures order { IfOk result (λ outcome.
        order.new ≡ with_step order.old actor.old.actor.number outcome) }
    ensures err_nodes { OnErr result (nodes.new ≡ nodes.old) }
    ensures err_actor { OnErr result (actor.new.actor ≡ actor.old.actor) }
    ensures err_order { OnErr result (order.new ≡ order.old) }
    ensures rests { IsOut actor.new.readiness → ⊥ }
{
    actor.ready()?;
    let number = actor.number();
    // The entry has its place before the turn, so that nothing behind the turn takes memory.
    order.push(Step {
        actor: number,
        outcome: Outcome::Done,
    })?;
    let at = place_in(nodes.len(), actor.goes_to());
    let outcome = turn_on(&mut nodes[at], actor);
    order.set_last(Step {
        actor: number,
        outcome,
    });
    Ok(outcome)
}

/// The place of the node of this number among so many. The metaserver takes the place of one that
/// isn't there.
fn place_in(count: usize, node: Option<NodeId>) -> usize
    ensures place { result ≡ place_in count node }
    ensures within { 0 < count → result < count }
{
    match node {
        Some(number) if (number as usize) < count => number as usize,
        _ => 0,
    }
}
