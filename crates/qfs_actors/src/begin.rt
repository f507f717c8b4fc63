//! A machine that can carry out any command of an actor.
ghost use Rattle.std.specs.Prelude.{◌≡◌, ◌≤◌};
ghost use Rattle.qfs_model_actor.specs.Command.{work_of};
ghost use Rattle.qfs_machine.specs.declared.machine.Readiness.{Readiness};

use qfs_base::command::Command;
use qfs_base::rules::Rules;
use qfs_machine::Machine;
use std::alloc::Global;

/// A machine that begins whatever command an actor is given.
pub trait Begin: Machine + Sized {
    /// The actor's command of this number, from 1, at its first request. It isn't prepared.
    /// Takes no memory.
    fn begin(alloc: Global, rules: Rules, number: u16, command: Command) -> Self
        requires tries { 1 ≤ rules.tries }
        ensures rest { Self.rest result ≡ work_of rules number command }
        ensures unready { Self.readiness result ≡ Readiness.Unready };
}
