//! Leases with a term.

ghost use Rattle.qfs_model_rows.specs.Leases.{LeaseRunsOut};

/// A copy that was moved away is swept once the lease of a get has run out, which reads around it.
pub fn lease_runs_out()
    ensures { LeaseRunsOut }
{}
