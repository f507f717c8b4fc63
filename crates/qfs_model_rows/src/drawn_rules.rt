//! Runs of drawn orders under a term, and with servers that are upgraded.

ghost use Rattle.qfs_model_rows.specs.DrawnRules.{EmptiedAndUpgraded, PutUnderATerm, SixServersAlone};

/// A server is emptied, stopped and not upgraded; files are removed.
pub fn emptied_and_upgraded()
    ensures { EmptiedAndUpgraded }
{}

/// Four puts under a term of two ticks.
pub fn put_under_a_term()
    ensures { PutUnderATerm }
{}

/// No put finds nine servers; one server is upgraded.
pub fn six_servers_alone()
    ensures { SixServersAlone }
{}
