//! What a step looks at and what it changes.

ghost use Rattle.qfs_model_world.specs.OneStep.{StepsAreAlike, StepsChangeTwo};

/// In worlds of one layout that agree on an actor and on the node that it goes to, its step is
/// answered alike and leaves actor and node alike. No other actor and no other node changes in it.
pub fn a_step_is_its_actors_and_nodes()
    ensures alike { StepsAreAlike }
    ensures two { StepsChangeTwo }
{}
