//! The definition of a script, on two texts.
ghost use Rattle.std.specs.Prelude.{◌≡◌};
ghost use Rattle.qfs_first.specs.Examples.{first_text, first_script, bad_text};
ghost use Rattle.qfs_first.specs.Lines.{text_lines};
ghost use Rattle.qfs_first.specs.Script.{read_lines};

/// A put and a get are read from their lines; a stripe that is no power of two makes its line bad.
pub fn reads_by_lines()
    ensures good { read_lines (text_lines first_text) ≡ Ok first_script }
    ensures bad { read_lines (text_lines bad_text) ≡ Err 2 }
{}
