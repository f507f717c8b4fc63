//! Commands that are refused, and files that change under a get.

ghost use Rattle.qfs_model_rows.specs.Refusals.{PutAnewDuringGet, TreeRefusals, UnclosedFile, DroppedDuringGet, LogFails};

/// A get reads the file that it opened, also where its path names another one since.
pub fn put_anew_during_get()
    ensures { PutAnewDuringGet }
{}

/// Each refusal of the name tree, at its place of the history.
pub fn tree_refusals()
    ensures { TreeRefusals }
{}

/// A file that is still written is not read.
pub fn unclosed_file()
    ensures { UnclosedFile }
{}

/// An actor that was dropped is told the turn before.
pub fn dropped_during_get()
    ensures { DroppedDuringGet }
{}

/// A request whose log disk fails changes nothing.
pub fn log_fails()
    ensures { LogFails }
{}
