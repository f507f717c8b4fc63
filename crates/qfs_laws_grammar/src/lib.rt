//! Laws of the grammar of scripts: what is read is a script, and what is printed is read back. Each
//! function here does nothing, and its contract is a law.
#![tactic(auto)]

ghost use Rattle.qfs_model_grammar.specs.Laws.{GivesScripts, ReadsBack};

/// What is read of a text keeps all ranges and limits of scripts, and has an order if it is to be
/// replayed.
pub fn read_texts_are_scripts()
    ensures { GivesScripts }
{}

/// What is printed of a script is read back, where the text keeps the limits on its bytes and lines.
/// It is read for a replay too, if the script has an order.
pub fn printed_scripts_are_read_back()
    ensures { ReadsBack }
{}
