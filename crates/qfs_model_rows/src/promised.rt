//! What worked runs are by the words of the promises.

ghost use Rattle.qfs_model_rows.specs.Promised.{HeardWords, TooFewWords, NoServerWords, LeaseWords, CopyWords};

/// What actors heard are the steps of their commands, and a put tries one server after another.
pub fn heard_words()
    ensures { HeardWords }
{}

/// Each attempt of a get has its causes, and something was taken away from the first.
pub fn too_few_words()
    ensures { TooFewWords }
{}

/// No server is left for a slot once the last one failed.
pub fn no_server_words()
    ensures { NoServerWords }
{}

/// A Tick ended the lease that a get still holds.
pub fn lease_words()
    ensures { LeaseWords }
{}

/// The letters of an audit and the live copies, where a server was emptied.
pub fn copy_words()
    ensures { CopyWords }
{}
