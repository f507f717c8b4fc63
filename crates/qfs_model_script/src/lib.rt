//! Scripts as values, as definitions: which there are, how one is printed, and which one is made of
//! a number.
#![tactic(auto)]

ghost use Rattle.qfs_model_script.specs.Examples.{MadeOfFive, SmallScript};

mod limits;

/// A script of two commands is printed in seven lines, and keeps all limits.
pub fn small_script_is_printed_so()
    ensures { SmallScript }
{}

/// The script that is made of 5 has 1,061 lines.
pub fn script_made_of_five()
    ensures { MadeOfFive }
{}
