//! Files that are put and read while every server is up.

ghost use Rattle.qfs_model_rows.specs.PlainPaths.{PlainPath, EmptyFile, OneRow, TwoRows, TwoBlocks, PastTheEnd, TwoWindows, TakenAndMissing};

/// Five bytes are put and read again.
pub fn plain_path()
    ensures { PlainPath }
{}

/// A file without bytes has no block: nothing is stored or fetched.
pub fn empty_file()
    ensures { EmptyFile }
{}

/// A full row of ones, and the parity chunks beside it.
pub fn one_row()
    ensures { OneRow }
{}

/// One byte more begins a second row.
pub fn two_rows()
    ensures { TwoRows }
{}

/// A range that lies in two blocks.
pub fn two_blocks()
    ensures { TwoBlocks }
{}

/// A range is cut at the file's end.
pub fn past_the_end()
    ensures { PastTheEnd }
{}

/// A range that lies in two windows of rows.
pub fn two_windows()
    ensures { TwoWindows }
{}

/// A path that is taken, and one that isn't there.
pub fn taken_and_missing()
    ensures { TakenAndMissing }
{}
