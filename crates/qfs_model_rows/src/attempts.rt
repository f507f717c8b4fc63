//! Gets that open their file again.

ghost use Rattle.qfs_model_rows.specs.Attempts.{OpensAgain};

/// A get that found too few copies opens its file again, and reads where a server came back.
pub fn opens_again()
    ensures { OpensAgain }
{}
