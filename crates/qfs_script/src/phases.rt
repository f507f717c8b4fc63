//! The phases of a script, to which lines add.
ghost use Rattle.std.specs.Prelude.{◌≡◌, ◌∷◌, [], ◌++◌, OnOk};
ghost use Rattle.qfs_model_grammar.specs.SoFar.{change_last, with_actor, with_command};

use qfs_base::command::Command;
use qfs_base::listing::Listing;
use qfs_base::script::{Commands, Phase};
use std::alloc::{AllocError, Global};

/// Adds a command to the last of these actors.
#[tactic(auto, using(crate::proofs::LastItems::in_last, crate::proofs::LastItems::in_none))]
fn push_to_last(actors: &mut Phase, command: Command) -> Result<(), AllocError>
    ensures { OnOk result (actors.new ≡ change_last (λ commands. commands ++ command ∷ []) actors.old) }
{
    match actors.pop() {
        Some(mut commands) => {
            commands.push(command)?;
            actors.push(commands)
        }
        None => Ok(()),
    }
}

/// Adds a command to the last actor of the last phase. On want of memory the phases are lost.
#[tactic(auto, unfolding(qfs_model_grammar::specs::SoFar::with_command), using(crate::proofs::LastItems::in_last, crate::proofs::LastItems::in_none))]
pub fn push_command(phases: &mut Listing<Phase>, command: Command) -> Result<(), AllocError>
    ensures { OnOk result (phases.new ≡ with_command command phases.old) }
{
    match phases.pop() {
        Some(mut actors) => {
            push_to_last(&mut actors, command)?;
            phases.push(actors)
        }
        None => Ok(()),
    }
}

/// Adds an actor without commands to the last phase. On want of memory the phases are lost.
#[tactic(auto, unfolding(qfs_model_grammar::specs::SoFar::with_actor), using(crate::proofs::LastItems::in_last, crate::proofs::LastItems::in_none))]
pub fn push_actor(alloc: Global, phases: &mut Listing<Phase>) -> Result<(), AllocError>
    ensures { OnOk result (phases.new ≡ with_actor phases.old) }
{
    match phases.pop() {
        Some(mut actors) => {
            let commands: Commands = Listing::new(alloc);
            actors.push(commands)?;
            phases.push(actors)
        }
        None => Ok(()),
    }
}
