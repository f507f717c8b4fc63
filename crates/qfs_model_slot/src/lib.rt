//! The chunks of a file, as everything above speaks of them: definitions alone, and examples that
//! show what they mean.
#![tactic(auto)]

ghost use Rattle.qfs_model_slot.specs.Examples.{OnesAreCoded, EndIsFilled, NextBlockGoesOn};

/// What the definition gives for files of a few rows, as one works it out by eye.
pub fn small_files_have_these_chunks()
    ensures coded { OnesAreCoded }
    ensures filled { EndIsFilled }
    ensures next_block { NextBlockGoesOn }
{}
