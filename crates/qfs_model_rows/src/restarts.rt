//! Checkpoints and restarts of the metaserver.

ghost use Rattle.qfs_model_rows.specs.Restarts.{SavedAndRestarted, Restarts};

/// A checkpoint and a restart tell the turn, and leave all as it was.
pub fn saved_and_restarted()
    ensures { SavedAndRestarted }
{}

/// A restart behind one request, and one whose disk fails.
pub fn restarts()
    ensures { Restarts }
{}
