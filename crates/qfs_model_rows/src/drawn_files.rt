//! Runs of drawn orders, about files and names.

ghost use Rattle.qfs_model_rows.specs.DrawnFiles.{ShortOfNames, ThreeBlocks, SweptBehindRemoves, DeepPaths, SixPuts, ReplacedWhileWritten};

/// Gets of what is there and what isn't; a server is emptied twice.
pub fn short_of_names()
    ensures { ShortOfNames }
{}

/// A file of three blocks among empty ones.
pub fn three_blocks()
    ensures { ThreeBlocks }
{}

/// Files are removed and swept by several actors at once.
pub fn swept_behind_removes()
    ensures { SweptBehindRemoves }
{}

/// A tree thirty names deep, under a term.
pub fn deep_paths()
    ensures { DeepPaths }
{}

/// Six puts in a row.
pub fn six_puts()
    ensures { SixPuts }
{}

/// A file takes the place of one that was removed, and is seen while it is written.
pub fn replaced_while_written()
    ensures { ReplacedWhileWritten }
{}
