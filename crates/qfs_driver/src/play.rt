//! A world's actors take their turns as they are drawn.
ghost use Rattle.std.specs.Prelude.{◌≡◌, ◌<◌, [], length, OnOk, OnErr, IfErr};
ghost use Rattle.rand_pcg.specs.Pcg.{pcg32};
ghost use Rattle.qfs_driver.specs.Playing.{Continues, IsDrawnSo, HasNothingLeft, StopsAt, StopsDrawnStep, StopsStep, TakesDrawnStep};
ghost use Rattle.qfs_world.specs.Calls.{HasTurn, TakesStep};
ghost use Rattle.qfs_world.specs.View.{turn_of};

use crate::draws::{draw, generator_of};
use crate::status::Status;
use qfs_base::history::Outcome;
use qfs_base::numbers::ActorId;
use qfs_device::{ChunkDevice, LogDisk};
use qfs_world::World;
use rand_pcg::Pcg32;

/// Lets drawn actors take steps until none has anything left to do. It stops where a device fails
/// or memory is wanting.
pub fn play<D: ChunkDevice, L: LogDisk>(world: &mut World<D, L>, number: u64) -> Result<(), Status>
    requires { world.old.order ≡ [] }
    ensures continues { Continues world.old world.new }
    ensures drawn { OnOk result (IsDrawnSo number world.new) }
    ensures ended { OnOk result (HasNothingLeft world.new) }
    ensures err { IfErr result (StopsAt number world.old world.new) }
{
    let mut generator = generator_of(number);
    loop {
        let Ok(turns) = world.turn() else {
            return Err(Status::NoMemory);
        };
        if turns.is_empty() {
            return Ok(());
        }
        take_drawn_step(world, &mut generator, turns.as_slice())?;
    }
}

/// Draws one of those whose turn it may be, and lets it take a step that comes out done.
fn take_drawn_step<D: ChunkDevice, L: LogDisk>(
    world: &mut World<D, L>,
    generator: &mut Pcg32,
    turns: &[ActorId],
) -> Result<(), Status>
    requires some { 0 < length turns.now }
    requires turns { turns.now ≡ turn_of world.old.script world.old.actors }
    ensures done { OnOk result
        (TakesDrawnStep turns.now (pcg32 generator.old).0 world.old world.new) }
    ensures next { generator.new ≡ (pcg32 generator.old).1 }
    ensures continues { Continues world.old world.new }
    ensures err { IfErr result
        (StopsDrawnStep turns.now (pcg32 generator.old).0 world.old world.new) }
{
    let actor = draw(generator, turns);
    take_step(world, actor)
}

/// Lets an actor take a step that comes out done.
fn take_step<D: ChunkDevice, L: LogDisk>(
    world: &mut World<D, L>,
    actor: ActorId,
) -> Result<(), Status>
    requires { HasTurn world.old actor }
    ensures done { OnOk result (TakesStep world.old actor Outcome.Done world.new) }
    ensures continues { Continues world.old world.new }
    ensures err { IfErr result (StopsStep world.old actor world.new) }
{
    let node = world.goes_to(actor);
    match world.step(actor) {
        Ok(Outcome::Done) => Ok(()),
        Ok(Outcome::Failed) => match node {
            Some(server) => Err(Status::DeviceFault { server }),
            None => unreachable!("an actor whose turn it is goes to a node"),
        },
        Ok(Outcome::NoMemory) | Err(_) => Err(Status::NoMemory),
    }
}
