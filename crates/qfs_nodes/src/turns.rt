//! Whose turn it may be.
ghost use Rattle.std.specs.Prelude.{◌≡◌, ◌≤◌, ◌++◌, length, IfOk, OnOk};
ghost use Rattle.qfs_model_actor.specs.Actor.{has_finished};
ghost use Rattle.qfs_model_world.specs.Fits.{unfinished};
ghost use Rattle.qfs_nodes.specs.Actors.{actors_of, number_if, total, turn_by_sizes};

use qfs_actor::Actor;
use qfs_base::lists::TurnList;
use std::alloc::{AllocError, Global};

/// The unfinished actors of the first phase that has one, where the phases have these sizes.
pub fn current_turn(
    alloc: Global,
    actors: &[Actor],
    sizes: &[usize],
) -> Result<TurnList, AllocError>
    requires { total sizes.now ≤ length actors.now }
    ensures { IfOk result (λ turn. turn ≡ turn_by_sizes sizes.now (actors_of actors.now)) }
{
    let mut rest = actors;
    for size in sizes {
        let (phase, others) = rest.split_at(*size);
        let turn = unfinished(alloc, phase)?;
        if !turn.is_empty() {
            return Ok(turn);
        }
        rest = others;
    }
    Ok(TurnList::new(alloc))
}

/// The numbers of the actors that haven't finished.
fn unfinished(alloc: Global, actors: &[Actor]) -> Result<TurnList, AllocError>
    ensures { IfOk result (λ turn. turn ≡ unfinished (actors_of actors.now)) }
{
    let mut turn = TurnList::new(alloc);
    for actor in actors {
        push_unfinished(&mut turn, actor)?;
    }
    Ok(turn)
}

/// Puts the number of an actor behind the others, unless it has finished.
fn push_unfinished(turn: &mut TurnList, actor: &Actor) -> Result<(), AllocError>
    ensures { OnOk result (turn.new ≡ turn.old
        ++ number_if actor.now.actor.number (has_finished actor.now.actor)) }
{
    if actor.goes_to().is_none() {
        return Ok(());
    }
    turn.push(actor.number())?;
    Ok(())
}
