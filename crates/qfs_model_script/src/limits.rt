//! The law that made scripts keep all limits.

ghost use Rattle.std.specs.Prelude.{ℕ};
ghost use Rattle.qfs_model_script.specs.InScript.{IsScript};
ghost use Rattle.qfs_model_script.specs.MadeScript.{made_script};

/// The script that is made of a number is one: it keeps each range and each limit.
pub fn made_scripts_are_scripts()
    ensures { (number : ℕ) → IsScript (made_script number) }
{}
