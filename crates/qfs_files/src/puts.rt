//! The bytes that the puts of a script write.
ghost use Rattle.std.specs.Prelude.{◌≡◌, ◌+◌, ◌≤◌, ℕ, List, flat_map, length, slice_range, IfOk};
ghost use Rattle.std.specs.Option.{option_copied, option_map};
ghost use Rattle.qfs_base.specs.FileReplies.{wanted_bytes};
ghost use Rattle.qfs_base.specs.Recipe.{bytes_of};
ghost use Rattle.qfs_model_world.specs.Puts.{PutCommand, command_of, put_in, put_of, puts_of};
ghost use Rattle.qfs_model_world.specs.World.{numbered};

use qfs_base::command::{Command, FileCommand, Range};
use qfs_base::listing::Listing;
use qfs_base::lists::Bytes;
use qfs_base::numbers::ActorId;
use qfs_base::script::{Commands, Phase, Script};
use qfs_recipe::{Recipe, RecipeCalls};
use std::alloc::{AllocError, Global};

/// The commands of an actor. Actors are numbered from 1 through all phases.
#[tactic(auto, unfolding(qfs_model_world::specs::World::numbered))]
fn commands_of(phases: &[Phase], actor: ActorId) -> Option<&Commands>
    ensures { option_copied result ≡ numbered (flat_map (λ phase. phase) phases.now) actor }
{
    if actor == 0 {
        return None;
    }
    let mut left = usize::from(actor - 1);
    for phase in phases {
        if left < phase.len() {
            return phase.get(left);
        }
        left -= phase.len();
    }
    None
}

/// The command of an actor and a number, both from 1.
#[tactic(auto, unfolding(qfs_model_world::specs::Puts::command_of, qfs_model_world::specs::World::numbered))]
fn command_of(script: &Script, actor: ActorId, number: u16) -> Option<&Command>
    ensures { option_copied result ≡ command_of script.now actor number }
{
    let commands = commands_of(script.phases.as_slice(), actor)?;
    commands.get(usize::from(number.checked_sub(1)?))
}

/// What a command puts, if it is a put.
#[tactic(auto, unfolding(qfs_model_world::specs::Puts::put_in))]
fn recipe_in(command: &Command) -> Option<&Recipe>
    ensures { option_map bytes_of (option_copied result)
        ≡ option_map (λ (put : PutCommand). put.bytes) (put_in command.now) }
{
    match command {
        Command::File(FileCommand::Put(_, recipe)) => Some(recipe),
        _ => None,
    }
}

/// What the put of an actor and a number writes.
#[tactic(auto, unfolding(qfs_model_world::specs::Puts::put_of))]
fn recipe_of(script: &Script, actor: ActorId, number: u16) -> Option<&Recipe>
    ensures { option_map bytes_of (option_copied result)
        ≡ option_map (λ (put : PutCommand). put.bytes) (put_of script.now actor number) }
{
    recipe_in(command_of(script, actor, number)?)
}

/// Bytes from one on, and how many.
#[derive(Clone, Copy)]
struct Span {
    from: u32,
    count: u32,
}

/// What is wanted of so many bytes: a range is cut at their end, and without one all are wanted.
fn span_of(len: u32, range: Option<Range>) -> Span
    ensures within { result.from + result.count ≤ len }
    ensures bytes { (bytes : List ℕ) → length bytes ≡ len
        → slice_range bytes result.from (result.from + result.count) ≡ wanted_bytes bytes range }
{
    match range {
        None => Span {
            from: 0,
            count: len,
        },
        Some(range) => {
            let from = range.from.min(len);
            Span {
                from,
                count: range.count.min(len - from),
            }
        }
    }
}

/// The bytes of a recipe that are wanted.
fn read_recipe(alloc: Global, recipe: &Recipe, range: Option<Range>) -> Result<Bytes, AllocError>
    ensures { IfOk result (λ read. read ≡ wanted_bytes (bytes_of recipe.now) range) }
{
    let span = span_of(recipe.len(), range);
    let mut bytes = vec![in alloc; 0; span.count as usize]?;
    recipe.fill(span.from, bytes.as_mut_slice());
    Ok(Listing::from_vec(bytes))
}

/// The bytes that are wanted of what the put of an actor and a number writes: none where that is
/// no put.
#[tactic(auto, unfolding(qfs_model_world::specs::Puts::puts_of))]
pub fn read_put(
    alloc: Global,
    script: &Script,
    actor: ActorId,
    number: u16,
    range: Option<Range>,
) -> Result<Bytes, AllocError>
    ensures { IfOk result
        (λ read. read ≡ wanted_bytes (puts_of script.now actor number) range) }
{
    match recipe_of(script, actor, number) {
        Some(recipe) => read_recipe(alloc, recipe, range),
        None => Ok(Listing::new(alloc)),
    }
}
