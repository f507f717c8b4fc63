//! Laws of the world in which a script starts.

ghost use Rattle.std.specs.Prelude.{◌<◌, ◌^◌};
ghost use Rattle.qfs_base.specs.Table.{Each};
ghost use Rattle.qfs_base.specs.declared.script.Script.{Script};
ghost use Rattle.qfs_model_actor.specs.Actor.{Actor};
ghost use Rattle.qfs_model_actor.specs.Steps.{left};
ghost use Rattle.qfs_model_script.specs.InScript.{IsScript};
ghost use Rattle.qfs_model_world.specs.World.{start};

/// Each actor of a script starts with fewer than 2^56 steps, whatever the nodes answer.
pub fn actors_start_bounded()
    ensures { (script : Script) → IsScript script → Each (λ (actor : Actor). left actor < 2 ^ 56) (start script).actors }
{}
