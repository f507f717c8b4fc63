//! The grammar of scripts, as a definition: which text says which script, and which line of a text is
//! the first bad one. The functions here do nothing: their contracts say what the definition gives on
//! small texts.
#![tactic(auto)]

ghost use Rattle.qfs_model_grammar.specs.BadCounts.{BadCounts};
ghost use Rattle.qfs_model_grammar.specs.BadNumbers.{BadNumbers};
ghost use Rattle.qfs_model_grammar.specs.BadOthers.{BadOthers};
ghost use Rattle.qfs_model_grammar.specs.BadWords.{BadWords};
ghost use Rattle.qfs_model_grammar.specs.Laws.{FirstBadDecides, LongTextIsRefused};
ghost use Rattle.qfs_model_grammar.specs.WorkedTexts.{WholeScript, LinesEnd, OrderIsMissing, CausesInOrder, HeadsAndRuns, PastLimits};

/// A first word that may not stand where it stands is refused, and so is a text that ends too early.
pub fn refuses_bad_words()
    ensures { BadWords }
{}

/// A line of too few or too many words is refused.
pub fn refuses_bad_counts()
    ensures { BadCounts }
{}

/// A number out of its range is refused.
pub fn refuses_bad_numbers()
    ensures { BadNumbers }
{}

/// A line past a limit, a word that is no path or tells no bytes, and a byte that is no text are refused.
pub fn refuses_others()
    ensures { BadOthers }
{}

/// A script with each form of line is read to its value, and so is what is printed of it.
pub fn reads_a_whole_script()
    ensures { WholeScript }
{}

/// A last line end opens no further line, and a phase without actors is complete.
pub fn reads_lines_to_their_end()
    ensures { LinesEnd }
{}

/// An order is missing only under a replay, and only where the script is good.
pub fn misses_an_order()
    ensures { OrderIsMissing }
{}

/// Of several causes of a line the first in their order is told.
pub fn tries_causes_in_order()
    ensures { CausesInOrder }
{}

/// The lines of the head stand in order, and their numbers and those of runs are in range.
pub fn refuses_heads_and_runs()
    ensures { HeadsAndRuns }
{}

/// The first line past a limit is refused, where it has no other cause.
pub fn refuses_past_limits()
    ensures { PastLimits }
{}

/// The first bad line is told with its cause, whatever stands behind it.
pub fn first_bad_line_decides()
    ensures { FirstBadDecides }
{}

/// A text of too many bytes is refused as such.
pub fn refuses_long_texts()
    ensures { LongTextIsRefused }
{}
